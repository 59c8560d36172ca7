//! Headers: the four lines that make a job.
ghost use Rattle.std.specs.Prelude.{◌≡◌, ◌<◌, ◌≤◌, length, IfErr, IfOk, Ok, Err};
ghost use Rattle.ps_model.specs.AcceptedJob.{AreWeights, IsAccepted};
ghost use Rattle.ps_model.specs.FirstFault.{Reads};
ghost use Rattle.ps_model.specs.Tree.{IsValidTree};
ghost use Rattle.residue.specs.Residues.{number_of};
ghost use Rattle.script.specs.Header.{Makes, modulus_in, TreeFault, WithTree};
ghost use Rattle.script.specs.Sayings.{RefusesBehind, SaysBehind};
ghost use Rattle.script.specs.Words.{words};

use crate::names::names_of;
use crate::refusal::{Keyword, Refusal, Refused};
use crate::roots::roots_of;
use crate::words::{first_word, number, trimmed};
use expr_reader::{Names, ReadError, read};
use intake::{Job, JobError};
use ps_model::Expr;
use residue::Modulus;
use std::alloc::Global;
use std::marker::Model;

/// The header of a script, as far as it is read.
#[derive(Drop)]
pub struct Header {
    alloc: Global,
    stage: Stage,
}

/// What the lines that were read say.
#[derive(Drop)]
enum Stage {
    Empty,
    WithModulus(Modulus),
    WithNames {
        modulus: Modulus,
        names: Names,
        weights: [u16; 8],
    },
    WithTree {
        modulus: Modulus,
        names: Names,
        weights: [u16; 8],
        tree: Expr,
    },
}

/// What a line of a header says.
#[derive(Drop)]
pub enum Said {
    /// The header goes on with the next line.
    Longer(Header),
    /// The header is whole: its job.
    Makes(Job),
}

impl Model for Header {
    ghost use Rattle.script.specs.Header.{Header as HeaderValue};
    ghost use Rattle.script.specs.Headers.{header_code, header_of, IsHeader};

    ghost Value = { HeaderValue };

    ghost coded = { header_code };

    ghost view = { λ s. header_of s.stage };

    ghost invariant = { λ s. IsHeader (header_of s.stage) };
}

impl Header {
    ghost use Rattle.std.specs.Prelude.{Some};
    ghost use Rattle.script.specs.Header.{Empty as NothingRead, HeaderSays, keyword_due};
    ghost use Rattle.script.specs.Sayings.{CanBeFactored, Refuses, said_of};
    ghost use Rattle.script.specs.Script.{Begun, missing};
    ghost use Rattle.script.specs.declared.refusal.Refusal.TheVariants.{Expected};

    /// A header of which nothing is read. It takes no memory.
    pub fn new(alloc: Global) -> Header
        ensures { result ≡ NothingRead }
    {
        Header {
            alloc,
            stage: Stage::Empty,
        }
    }

    /// The word that begins the line that is due.
    pub fn due(&self) -> Keyword
        ensures due { result ≡ keyword_due self.now }
        ensures missing { missing (Begun self.now) ≡ Some (Expected result) }
    {
        match &self.stage {
            Stage::Empty => Keyword::Mod,
            Stage::WithModulus(_) => Keyword::Vars,
            Stage::WithNames { .. } => Keyword::Poly,
            Stage::WithTree { .. } => Keyword::Roots,
        }
    }

    /// Reads the next line, which isn't one to be skipped. Where it is refused the header is dropped.
    pub fn read(self, line: &[u8]) -> Result<Said, Refused>
        requires { length line.now ≤ 65536 }
        ensures said { IfOk result (λ said. HeaderSays self line.now (said_of said)) }
        ensures accepted { IfOk result CanBeFactored }
        ensures refused { IfErr result (Refuses self line.now) }
    {
        let due = self.due();
        let Some((word, text)) = first_word(line) else {
            return Err(Refused::Line(Refusal::Expected(due)));
        };
        if word != due.text().as_bytes() {
            return Err(Refused::Line(Refusal::Expected(due)));
        }
        self.read_behind(text)
    }

    /// Reads what stands behind the word that is due.
    fn read_behind(self, text: &[u8]) -> Result<Said, Refused>
        requires { length text.now ≤ 65536 }
        ensures said { IfOk result (λ said. SaysBehind self text.now (said_of said)) }
        ensures accepted { IfOk result CanBeFactored }
        ensures refused { IfErr result (RefusesBehind self text.now) }
    {
        let alloc = self.alloc;
        match self.stage {
            Stage::Empty => {
                let modulus = modulus_of(text)?;
                let stage = Stage::WithModulus(modulus);
                Ok(Said::Longer(Header { alloc, stage }))
            }
            Stage::WithModulus(modulus) => {
                let (names, weights) = names_of(alloc, text)?;
                let stage = Stage::WithNames {
                    modulus,
                    names,
                    weights,
                };
                Ok(Said::Longer(Header { alloc, stage }))
            }
            Stage::WithNames {
                modulus,
                names,
                weights,
            } => {
                let tree = tree_of(alloc, trimmed(text), &names)?;
                let stage = Stage::WithTree {
                    modulus,
                    names,
                    weights,
                    tree,
                };
                Ok(Said::Longer(Header { alloc, stage }))
            }
            Stage::WithTree {
                modulus,
                names,
                weights,
                tree,
            } => {
                let job = job_of(alloc, modulus, names, weights, tree, text)?;
                Ok(Said::Makes(job))
            }
        }
    }
}

/// The modulus of the words behind `mod`.
fn modulus_of(text: &[u8]) -> Result<Modulus, Refusal>
    ensures read { IfOk result (λ m. modulus_in (words text.now) ≡ Ok (number_of m)) }
    ensures fault { IfErr result (λ f. modulus_in (words text.now) ≡ Err f) }
{
    let Some((word, rest)) = first_word(text) else {
        return Err(Refusal::BadModulus);
    };
    if first_word(rest).is_some() {
        return Err(Refusal::BadModulus);
    }
    let Some(m) = number(word) else {
        return Err(Refusal::BadModulus);
    };
    if m >= 1 << 63 {
        return Err(Refusal::ModulusOutOfRange);
    }
    match Modulus::new(m as u64) {
        Ok(modulus) => Ok(modulus),
        Err(_) => Err(Refusal::ModulusOutOfRange),
    }
}

/// The tree of the expression behind `poly`.
#[tactic(auto, using(crate::proofs::TreeLemmas::told))]
fn tree_of(alloc: Global, text: &[u8], names: &Names) -> Result<Expr, Refused>
    requires { length text.now ≤ 65536 }
    ensures read { IfOk result (Reads names.now text.now) }
    ensures valid { IfOk result (IsValidTree (length names.now)) }
    ensures fault { IfErr result (TreeFault names.now text.now) }
{
    match read(alloc, text, names) {
        Ok(tree) => Ok(tree),
        Err(error) => match error {
            ReadError::OutOfMemory => Err(Refused::OutOfMemory),
            _ => Err(Refused::Line(Refusal::BadPolynomial(error))),
        },
    }
}

/// The job of the words behind `roots`, at the end of a header.
fn job_of(
    alloc: Global,
    modulus: Modulus,
    names: Names,
    weights: [u16; 8],
    tree: Expr,
    text: &[u8],
) -> Result<Job, Refused>
    requires line { length text.now ≤ 65536 }
    requires some { 0 < length names }
    requires weights { AreWeights (length names) weights }
    requires tree { IsValidTree (length names) tree }
    ensures made { IfOk result (λ job.
        SaysBehind (WithTree (number_of modulus) names weights tree) text.now (Makes job.names job.job)) }
    ensures accepted { IfOk result (λ job. IsAccepted job.job) }
    ensures names { IfOk result (λ job. length job.names ≡ job.job.n) }
    ensures refused { IfErr result (RefusesBehind (WithTree (number_of modulus) names weights tree) text.now) }
{
    let roots = roots_of(alloc, modulus, text)?;
    match Job::make(alloc, modulus, names, weights, tree, roots) {
        Ok(job) => Ok(job),
        Err(error) => match error {
            JobError::OutOfMemory => Err(Refused::OutOfMemory),
            _ => Err(Refused::Line(Refusal::BadJob(error))),
        },
    }
}
