//! The canonical spelling.
ghost use Rattle.std.specs.Prelude.{◌≡◌, ◌++◌, ◌<◌, length, IfOk, OnOk, string_bytes, IsTrue};
ghost use Rattle.ps_model.specs.Tree.{IsValidTree};
ghost use Rattle.ps_model.specs.Spelling.{spelling, inside, tightness as tightness_of};
ghost use Rattle.ps_model.specs.Spelling.{sign as sign_of, operator as operator_of};

use crate::Names;
use ps_model::{Expr, OutOfMemory};
use std::alloc::Global;
use std::fmt::Write;

/// The canonical spelling.
pub fn print(alloc: Global, expr: &Expr, names: &Names) -> Result<String, OutOfMemory>
    requires { IsValidTree (length names.now) expr.now }
    ensures { IfOk result (λ text. string_bytes text ≡ spelling names.now expr.now) }
{
    let mut out = String::new(alloc);
    write_expr(&mut out, expr, names)?;
    Ok(out)
}

#[cycle(print)]
fn write_expr(out: &mut String, expr: &Expr, names: &Names) -> Result<(), OutOfMemory>
    requires { IsValidTree (length names.now) expr.now }
    ensures { OnOk result
        (string_bytes out.new ≡ string_bytes out.old ++ spelling names.now expr.now) }
{
    match expr {
        Expr::Number(n) => write!(out, "{n}")?,
        Expr::Name(i) => out.push_str(names.text(*i))?,
        Expr::MainVariable => out.push_str("Y")?,
        Expr::Sum(summands) => {
            let mut first = true;
            for summand in summands.as_slice() {
                out.push_str(sign(first, summand.minus))?;
                write_inside(out, 1, &summand.of, names)?;
                first = false;
            }
        }
        Expr::Product(factors) => {
            let mut first = true;
            for factor in factors.as_slice() {
                out.push_str(operator(first, factor.divide))?;
                write_inside(out, 2, &factor.of, names)?;
                first = false;
            }
        }
        Expr::Power(base, exponent) => {
            write_inside(out, 3, base.get(), names)?;
            write!(out, "^{exponent}")?;
        }
    }
    Ok(())
}

#[cycle(print)]
fn write_inside(out: &mut String, outer: u8, expr: &Expr, names: &Names) -> Result<(), OutOfMemory>
    requires { IsValidTree (length names.now) expr.now }
    ensures { OnOk result (string_bytes out.new ≡ string_bytes out.old ++ inside outer expr.now
        (spelling names.now expr.now)) }
{
    if tightness(expr) <= outer {
        out.push_str("(")?;
        write_expr(out, expr, names)?;
        out.push_str(")")?;
        Ok(())
    } else {
        write_expr(out, expr, names)
    }
}

fn tightness(expr: &Expr) -> u8
    ensures { result ≡ tightness_of expr.now }
{
    match expr {
        Expr::Sum(_) => 1,
        Expr::Product(_) => 2,
        Expr::Power(_, _) => 3,
        _ => 4,
    }
}

fn sign(first: bool, minus: bool) -> &'static str
    ensures { result.now ≡ sign_of first minus }
{
    match (first, minus) {
        (true, true) => "-",
        (true, false) => "",
        (false, true) => " - ",
        (false, false) => " + ",
    }
}

fn operator(first: bool, divide: bool) -> &'static str
    ensures { result.now ≡ operator_of first divide }
{
    match (first, divide) {
        (true, _) => "",
        (false, true) => "/",
        (false, false) => "*",
    }
}
