//! The program as `clap` knows it.
ghost use Rattle.std.specs.Prelude.{◌≡◌, IfOk, codes};
ghost use Rattle.clap.specs.Words.{app_of, new_app};
ghost use Rattle.clap.specs.Simple.{on_top};
ghost use Rattle.words.specs.Subcommands.{declared, demo_app, factor_app, without_help};

use clap::{Arg, Command};
use std::alloc::{AllocError, Global};

/// The subcommands with their arguments, whose values are read as text. Words that ask for help or the
/// version are unknown.
pub(crate) fn program<'a>(alloc: Global) -> Result<Command<'a>, AllocError>
    ensures { IfOk result (λ program. app_of program ≡ declared) }
{
    let with_factor = without_subcommands(alloc).subcommand(factor(alloc)?)?;
    let with_expand = with_factor.subcommand(Command::new(alloc, "expand"))?;
    let with_check = with_expand.subcommand(Command::new(alloc, "check"))?;
    let program = with_check.subcommand(demo(alloc)?)?;
    Ok(program)
}

fn without_subcommands<'a>(alloc: Global) -> Command<'a>
    ensures { app_of result ≡ on_top without_help (new_app (codes "hensel_tool")) }
{
    Command::new(alloc, "hensel_tool")
        .no_binary_name(true)
        .disable_help_flag(true)
        .disable_help_subcommand(true)
        .subcommand_required(true)
}

/// `factor`, with two options.
fn factor<'a>(alloc: Global) -> Result<Command<'a>, AllocError>
    ensures { IfOk result (λ factor. app_of factor ≡ factor_app) }
{
    let rounds = Arg::new(alloc, "rounds").long("rounds");
    let workers = Arg::new(alloc, "workers").long("workers");
    let factor = Command::new(alloc, "factor").arg(rounds)?.arg(workers)?;
    Ok(factor)
}

/// `demo`, which wants a number.
fn demo<'a>(alloc: Global) -> Result<Command<'a>, AllocError>
    ensures { IfOk result (λ demo. app_of demo ≡ demo_app) }
{
    let number = Arg::new(alloc, "number").required(true);
    let demo = Command::new(alloc, "demo").arg(number)?;
    Ok(demo)
}
