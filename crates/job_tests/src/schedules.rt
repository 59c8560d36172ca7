//! Stages that step in an order of the caller's.
ghost use Rattle.std.specs.Prelude.{◌<◌, length, All, IsTrue};

use crate::jobs::{job_of_two, push_part};
use parts::permitted;
use stages::{Core, LineView, run_schedule};
use std::alloc::Global;
use std::sync::Arc;
use std::test::Fail;

/// The items of a stage: of each degree the parts of its factor, from Y^0 on.
fn push_items(alloc: Global, text: &mut String, core: &Core, stage: u32) -> Result<(), Fail>
    requires { stage < length (⟦<Core as LineView>⟧.states core.now) }
{
    for r in 0..core.len(stage) {
        text.push_str(format!(in alloc; "{stage} {r}:")?.as_str())?;
        for part in core.item(stage, r).factor() {
            push_part(alloc, text, &["x"], part)?;
            text.push_str(";")?;
        }
        text.push_str("\n")?;
    }
    Ok(())
}

/// Whether all of these are stages of so many.
fn are_below(events: &[u32], count: u32) -> bool
    ensures { IsTrue result → All (λ s. s < count) events.now }
{
    for event in events {
        if *event >= count {
            return false;
        }
    }
    true
}

/// The items of both stages after these events.
fn items_after(alloc: Global, events: &[u32]) -> Result<String, Fail> {
    let mut job = job_of_two(alloc)?;
    let data = Arc::try_clone(job.data())?;
    let ring = job.ring();
    let roots = data.roots.as_slice().len();
    if roots != 2 || events.len() > 7 || !permitted(ring, events.len() as u32) {
        return Err("no schedule")?;
    }
    if !are_below(events, 2) {
        return Err("no stage")?;
    }
    let core = run_schedule(alloc, ring, data, job.input(), events)?;
    let mut text = String::new(alloc);
    push_items(alloc, &mut text, &core, 0)?;
    push_items(alloc, &mut text, &core, 1)?;
    Ok(text)
}

// By hand: stage 1 can't step at the first event, nor at the last one, where it would pass stage 0.
#[test]
fn a_stage_never_passes_the_one_before(rt: HostRuntime) -> Result<(), Fail> {
    let text = items_after(rt.alloc(), &[1, 0, 0, 1, 1, 1])?;
    let want = "0 0: + 91; + 1;\n0 1: + 51*x^1;;\n1 0: + 10; + 1;\n1 1: + 51*x^1;;\n";
    assert_eq!(rt; text.as_str(), want);
    Ok(())
}

// By hand: the same items, whatever the order in which the stages come to them.
#[test]
fn another_order_gives_the_same_items(rt: HostRuntime) -> Result<(), Fail> {
    let one = items_after(rt.alloc(), &[0, 1, 0, 1])?;
    let other = items_after(rt.alloc(), &[0, 0, 1, 1])?;
    assert_eq!(rt; one.as_str(), other.as_str());
    Ok(())
}
