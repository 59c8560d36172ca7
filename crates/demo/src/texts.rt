//! The text of a demonstration.
ghost use Rattle.std.specs.Prelude.{◌≡◌, ◌+◌, ◌<◌, length, IfOk, string_bytes};
ghost use Rattle.parts.specs.Rings.{modulus_of};
ghost use Rattle.parts.specs.Series.{series};
ghost use Rattle.printer.specs.Texts.{factor_to, factors_to};
ghost use Rattle.printer.specs.View.{HasUpTo};
ghost use Rattle.demo.specs.DemoText.{demo_text, factor_line as line_of};
ghost use Rattle.demo.specs.Generator.{prime};

use crate::counting::summary_of;
use printer::BlockView;
use ps_model::OutOfMemory;
use std::alloc::Global;

/// The line of the factor at place i, which counts it from 1.
fn factor_line<V: BlockView>(alloc: Global, view: &V, i: u32) -> Result<String, OutOfMemory>
    requires factor { i < length (V.value view.now).roots }
    requires known { HasUpTo (V.value view.now) 40 }
    requires modulus { modulus_of (V.value view.now).ring ≡ prime }
    ensures { IfOk result (λ line. string_bytes line
        ≡ line_of (series (V.value view.now).ring) (i + 1) (factor_to (V.value view.now) 40 i)) }
{
    let summary = summary_of(view, i);
    let number = u64::from(i) + 1;
    let terms = summary.terms;
    let sum = summary.sum;
    let line = format!(in alloc; "factor {number} terms {terms} sum {sum}\n")?;
    Ok(line)
}

/// The summary of the factors of a view up to degree 40.
pub(crate) fn text<V: BlockView>(
    alloc: Global,
    seed: u64,
    degree: u32,
    view: &V,
) -> Result<String, OutOfMemory>
    requires known { HasUpTo (V.value view.now) 40 }
    requires modulus { modulus_of (V.value view.now).ring ≡ prime }
    ensures { IfOk result (λ text. string_bytes text
        ≡ demo_text (series (V.value view.now).ring) seed degree (factors_to (V.value view.now) 40)) }
{
    let mut text = format!(in alloc; "demo {seed} degree {degree}\nprecision 40\n")?;
    for i in 0..view.factors() {
        let line = factor_line(alloc, view, i)?;
        text.push_str(line.as_str())?;
    }
    text.push_str("steps 164\n")?;
    Ok(text)
}
