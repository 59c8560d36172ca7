//! The definition of a list of factors, as a slow test.
ghost use Rattle.std.specs.Prelude.{◌≡◌, ℕ, ◌-◌, ◌<◌, ◌≤◌, ◌==◌, ◌↔◌, nat_le, filter, map};
ghost use Rattle.std.specs.Prelude.{List, [], ◌∷◌};
ghost use Rattle.std.specs.Prelude.{IsTrue, IfOk, All};
ghost use Rattle.std.specs.FinMap.{FinMap, entries};
ghost use Rattle.ps_model.specs.Keys.{key_compare, add_keys, y_key};
ghost use Rattle.ps_model.specs.FiniteMaps.{collected, sum_maps, product_maps};
ghost use Rattle.ps_model.specs.Notation.{sum, product, truncated};
ghost use Rattle.ps_model.specs.Bounds.{HasNoDegreeAbove, IsMonic};
ghost use Rattle.ps_model.specs.Factors.{root_power, product_of, IsFactor, EachIsFactor};
ghost use Rattle.ps_model.specs.Job.{AreFactorsOf};
ghost use Rattle.ps_model.specs.Plain.{entry_of, key_of};
ghost use Rattle.ps_model.specs.PlainLists.{IsInRange, without_y, y_terms, cut_map};
ghost use Rattle.ps_model.specs.PlainPolynomial.{plain_polynomial, HasResiduesBelow};
ghost use Rattle.ps_model.specs.PlainPolynomial.{HasValuesBelow, HasKeysWithin};
ghost use Rattle.ps_model.specs.PlainPolynomial.{y_part, total_powers};

use crate::plain::terms::compare;
use crate::plain::{PlainPoly, PlainTerm, plain_cut, plain_product};
use crate::shape::wide_degree;
use crate::{JobData, OutOfMemory, Root};
use std::alloc::{AllocError, Global};
use std::cmp::Ordering;

/// Whether two terms have the same key and the same coefficient.
fn same_entry(a: &PlainTerm, b: &PlainTerm) -> bool
    ensures { IsTrue result ↔ (entry_of a.now ≡ entry_of b.now) }
{
    compare(a, b) == Ordering::Equal && a.coefficient == b.coefficient
}

/// Whether two lists of terms are the same.
fn same_terms(a: &[PlainTerm], b: &[PlainTerm]) -> bool
    ensures { IsTrue result ↔ (map entry_of a.now ≡ map entry_of b.now) }
{
    if a.len() != b.len() {
        return false;
    }
    for (i, x) in a.iter().enumerate() {
        if !same_entry(x, &b[i]) {
            return false;
        }
    }
    true
}

/// Whether two polynomials are the same.
fn same(a: &PlainPoly, b: &PlainPoly) -> bool
    ensures entries { IsTrue result ↔ (a.now ≡ b.now) }
    ensures polynomials { (m : ℕ) (ws : List ℕ) → 2 ≤ m →
        HasValuesBelow m a.now → HasValuesBelow m b.now →
        (IsTrue result ↔ (plain_polynomial m ws a.now ≡ plain_polynomial m ws b.now)) }
{
    same_terms(a.terms(), b.terms())
}

/// The terms with Y^k and above.
fn high_terms(alloc: Global, terms: &[PlainTerm], k: u32) -> Result<Vec<PlainTerm>, AllocError>
    ensures { IfOk result (λ v. v.items ≡ filter (λ t. nat_le k t.y) terms.now) }
{
    terms.iter().filter(|t| k <= t.y).copied().collect(alloc)
}

/// The entries with Y^k and above.
fn powers_from(alloc: Global, a: &PlainPoly, k: u32) -> Result<PlainPoly, OutOfMemory>
    ensures { IfOk result (λ p. p ≡ y_part k a.now) }
{
    let terms = high_terms(alloc, a.terms(), k)?;
    Ok(PlainPoly { terms })
}

/// Y^k, modulo m.
fn y_power(alloc: Global, m: u64, k: u32) -> Result<PlainPoly, OutOfMemory>
    requires { 0 < m }
    ensures { IfOk result (λ p. p ≡ collected (key_compare 8) m ((y_key 8 k, 1) ∷ [])) }
{
    let mut power = PlainPoly::new(alloc);
    power.add(m, 1, &y_term(k))?;
    Ok(power)
}

/// A term with the key of Y^k, and with coefficient 0.
fn y_term(k: u32) -> PlainTerm
    ensures { key_of result ≡ y_key 8 k }
{
    PlainTerm {
        powers: [0; 8],
        y: k,
        coefficient: 0,
    }
}

/// Y - value, modulo m.
fn linear(alloc: Global, m: u64, value: u64) -> Result<PlainPoly, OutOfMemory>
    requires { value < m }
    ensures { IfOk result (λ p. p
        ≡ collected (key_compare 8) m ((y_key 8 1, 1) ∷ (y_key 8 0, m - value) ∷ [])) }
{
    let mut linear = PlainPoly::new(alloc);
    linear.add(m, (m - value) as u128, &y_term(0))?;
    linear.add(m, 1, &y_term(1))?;
    Ok(linear)
}

/// (Y - value) ^ times, modulo m.
fn plain_root_power(alloc: Global, m: u64, root: &Root) -> Result<PlainPoly, OutOfMemory>
    requires modulus { 2 ≤ m }
    requires residue { root.now.value < m }
    ensures power { IfOk result
        (λ p. (ws : List ℕ) → plain_polynomial m ws p ≡ root_power root.now) }
    ensures residues { IfOk result (λ p. HasValuesBelow m p) }
{
    let linear = linear(alloc, m, root.value)?;
    let mut power = y_power(alloc, m, 0)?;
    for _i in 0..root.times {
        power = plain_product(alloc, m, &linear, &power)?;
    }
    Ok(power)
}

/// Whether what stands at Y^k and above is Y^k alone.
fn is_monic(alloc: Global, m: u64, f: &PlainPoly, k: u32) -> Result<bool, OutOfMemory>
    requires modulus { 2 ≤ m }
    requires residues { HasValuesBelow m f.now }
    ensures { IfOk result
        (λ b. (ws : List ℕ) → (IsTrue b ↔ IsMonic k (plain_polynomial m ws f.now))) }
{
    let high = powers_from(alloc, f, k)?;
    let lead = y_power(alloc, m, k)?;
    Ok(same(&high, &lead))
}

/// Whether the entries without variables are the root's power.
fn is_at_origin(
    alloc: Global,
    m: u64,
    weights: &[u16; 8],
    f: &PlainPoly,
    root: &Root,
) -> Result<bool, OutOfMemory>
    requires modulus { 2 ≤ m }
    requires residue { root.now.value < m }
    requires residues { HasValuesBelow m f.now }
    ensures { IfOk result
        (λ b. IsTrue b
        ↔ (truncated 0 (plain_polynomial m weights.now f.now) ≡ root_power root.now)) }
{
    let low = plain_cut(alloc, weights, f, 0)?;
    let expected = plain_root_power(alloc, m, root)?;
    Ok(same(&low, &expected))
}

/// Whether no entry has a degree above d.
fn is_within(alloc: Global, weights: &[u16; 8], f: &PlainPoly, d: u32) -> Result<bool, OutOfMemory>
    ensures { IfOk result (λ b. (m : ℕ) → 2 ≤ m → HasValuesBelow m f.now →
        (IsTrue b ↔ HasNoDegreeAbove d (plain_polynomial m weights.now f.now))) }
{
    let low = plain_cut(alloc, weights, f, d)?;
    Ok(same(&low, f))
}

/// Whether f is a root's factor up to degree d.
fn is_factor(
    alloc: Global,
    m: u64,
    weights: &[u16; 8],
    root: &Root,
    f: &PlainPoly,
    d: u32,
) -> Result<bool, OutOfMemory>
    requires modulus { 2 ≤ m }
    requires residue { root.now.value < m }
    requires residues { HasResiduesBelow m f.now }
    ensures { IfOk result
        (λ b. IsTrue b ↔ IsFactor d root.now (plain_polynomial m weights.now f.now)) }
{
    if !is_monic(alloc, m, f, root.times)? {
        return Ok(false);
    }
    if !is_at_origin(alloc, m, weights, f, root)? {
        return Ok(false);
    }
    is_within(alloc, weights, f, d)
}

/// Whether each of fs is the factor of the root at its place, and each root has one.
fn are_factors(
    alloc: Global,
    m: u64,
    weights: &[u16; 8],
    roots: &[Root],
    fs: &[PlainPoly],
    d: u32,
) -> Result<bool, OutOfMemory>
    requires modulus { 2 ≤ m }
    requires roots { All (λ r. r.value < m) roots.now }
    requires residues { All (HasResiduesBelow m) fs.now }
    ensures { IfOk result
        (λ b. IsTrue b ↔ EachIsFactor d roots.now (map (plain_polynomial m weights.now) fs.now)) }
{
    if roots.len() != fs.len() {
        return Ok(false);
    }
    for (i, root) in roots.iter().enumerate() {
        if !is_factor(alloc, m, weights, root, &fs[i], d)? {
            return Ok(false);
        }
    }
    Ok(true)
}

/// The product of all of fs, cut at d after each factor.
fn product_up_to(
    alloc: Global,
    m: u64,
    weights: &[u16; 8],
    fs: &[PlainPoly],
    d: u32,
) -> Result<PlainPoly, OutOfMemory>
    requires modulus { 2 ≤ m }
    requires in_range { IsInRange (total_powers fs.now) }
    ensures product { IfOk result (λ p. plain_polynomial m weights.now p
        ≡ truncated d (product_of (map (plain_polynomial m weights.now) fs.now))) }
    ensures within { IfOk result (λ p. HasKeysWithin (total_powers fs.now) p) }
    ensures residues { IfOk result (λ p. HasValuesBelow m p) }
{
    let one = y_power(alloc, m, 0)?;
    let mut product = plain_cut(alloc, weights, &one, d)?;
    for i in (0..fs.len()).rev() {
        let next = plain_product(alloc, m, &fs[i], &product)?;
        product = plain_cut(alloc, weights, &next, d)?;
    }
    Ok(product)
}

/// The terms with Y^k.
fn terms_at(alloc: Global, terms: &[PlainTerm], k: u64) -> Result<Vec<PlainTerm>, AllocError>
    ensures { IfOk result (λ v. v.items ≡ filter (λ t. t.y == k) terms.now) }
{
    terms
        .iter()
        .filter(|t| t.y as u64 == k)
        .copied()
        .collect(alloc)
}

/// The sum of terms without their powers of Y, modulo m.
fn sum_without_y(alloc: Global, m: u64, terms: &[PlainTerm]) -> Result<PlainPoly, OutOfMemory>
    requires { 0 < m }
    ensures { IfOk result (λ p. p
        ≡ collected (key_compare 8) m (map (λ t. without_y (entry_of t)) terms.now)) }
{
    let mut sum = PlainPoly::new(alloc);
    for i in (0..terms.len()).rev() {
        let term = &terms[i];
        sum.add(m, term.coefficient as u128, &PlainTerm { y: 0, ..*term })?;
    }
    Ok(sum)
}

/// The coefficient of Y^k, modulo m.
fn y_coefficient(alloc: Global, m: u64, a: &PlainPoly, k: u64) -> Result<PlainPoly, OutOfMemory>
    requires { 0 < m }
    ensures { IfOk result
        (λ p. p ≡ collected (key_compare 8) m (y_terms k (entries a.now))) }
{
    let terms = terms_at(alloc, a.terms(), k)?;
    sum_without_y(alloc, m, &terms)
}

/// Whether fs is the list of factors up to degree d of the input cut at d, by the definition: one
/// monic factor for each of the job's roots, in their order, at the origin the root's power, with
/// no entry of degree above d, and their product, times the coefficient in the cut input of the
/// power of Y that is the formal degree of the job's tree, is up to d the cut input. Degrees are by
/// the job's weights, of which a 0 counts as 1. It is slow: it multiplies everything out term by
/// term.
pub fn plain_is_factors(
    alloc: Global,
    job: &JobData,
    input: &PlainPoly,
    d: u32,
    fs: &[PlainPoly],
) -> Result<bool, OutOfMemory>
    requires modulus { 2 ≤ job.now.modulus }
    requires roots { All (λ r. r.value < job.now.modulus) job.now.roots }
    requires input_residues { HasResiduesBelow job.now.modulus input.now }
    requires residues { All (HasResiduesBelow job.now.modulus) fs.now }
    requires in_range { IsInRange (total_powers (input.now ∷ fs.now)) }
    ensures { IfOk result (λ b. IsTrue b ↔ AreFactorsOf job.now d
        (truncated d (plain_polynomial job.now.modulus job.now.weights input.now))
        (map (plain_polynomial job.now.modulus job.now.weights) fs.now)) }
{
    let m = job.modulus;
    let weights = &job.weights;
    if !are_factors(alloc, m, weights, job.roots.as_slice(), fs, d)? {
        return Ok(false);
    }
    let cut = plain_cut(alloc, weights, input, d)?;
    let lead = y_coefficient(alloc, m, &cut, wide_degree(&job.expr))?;
    let product = product_up_to(alloc, m, weights, fs, d)?;
    let multiple = plain_product(alloc, m, &lead, &product)?;
    let whole = plain_cut(alloc, weights, &multiple, d)?;
    Ok(same(&whole, &cut))
}

/// The plain functions' answers as polynomials modulo m, for all weights: the sum, the product and
/// the truncation.
pub fn plain_laws()
    ensures sum { (m : ℕ) (ws : List ℕ) → 2 ≤ m → (a b : FinMap (key_compare 8) ℕ) →
        plain_polynomial m ws (sum_maps (key_compare 8) m a b)
        ≡ sum (plain_polynomial m ws a) (plain_polynomial m ws b) }
    ensures product { (m : ℕ) (ws : List ℕ) → 2 ≤ m → (a b : FinMap (key_compare 8) ℕ) →
        plain_polynomial m ws (product_maps (key_compare 8) (add_keys 8) m a b)
        ≡ product (plain_polynomial m ws a) (plain_polynomial m ws b) }
    ensures cut { (m : ℕ) (ws : List ℕ) (d : ℕ) (a : FinMap (key_compare 8) ℕ) →
        plain_polynomial m ws (cut_map ws d a) ≡ truncated d (plain_polynomial m ws a) }
{}
