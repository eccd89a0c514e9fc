//! Countdowns that take turns.
use crate::countdown::Countdown;
use crate::halves::all_halves;
use ig_turns::{Jobs, Turn, TurnFault, Turns};
use std::alloc::{AllocError, Global};
use std::test::Fail;

/// Countdowns named 10 and 11, from 3 and from 5, of which the second may refuse a step.
fn two(alloc: Global, second: Countdown) -> Result<Turns<Countdown>, AllocError> {
    let mut jobs = Jobs::new(alloc);
    jobs.push(Countdown::new(10, 3))
        .map_err(|refused| refused.1)?;
    jobs.push(second).map_err(|refused| refused.1)?;
    Ok(Turns::new(jobs))
}

#[test]
fn turns_end_with_the_answers_in_order(rt: HostRuntime) -> Result<(), Fail> {
    let mut turns = two(rt.alloc(), Countdown::new(11, 5))?;
    let played = turns.play(&[
        Turn { job: 1, events: 2 },
        Turn { job: 0, events: 4 },
        Turn { job: 1, events: 2 },
    ]);
    assert_eq!(rt; played, Ok(()));
    assert!(rt; turns.finished(0));
    assert!(rt; !turns.finished(1));
    assert!(rt; !turns.finished(2));
    assert_eq!(rt; turns.play(&[Turn { job: 1, events: 1 }]), Ok(()));
    assert!(rt; turns.finished(1));
    Ok(())
}

#[test]
fn the_first_turn_without_a_job_is_told(rt: HostRuntime) -> Result<(), Fail> {
    let mut turns = two(rt.alloc(), Countdown::new(11, 5))?;
    assert_eq!(rt;
        turns.play(&[Turn { job: 2, events: 1 }]),
        Err(TurnFault::NoJob { at: 0 })
    );
    let played = turns.play(&[
        Turn { job: 0, events: 9 },
        Turn { job: 7, events: 1 },
        Turn { job: 2, events: 1 },
    ]);
    assert_eq!(rt; played, Err(TurnFault::NoJob { at: 1 }));
    assert!(rt; !turns.finished(0));
    assert_eq!(rt; turns.play(&[]), Ok(()));
    Ok(())
}

#[test]
fn a_refused_step_is_told_as_memory(rt: HostRuntime) -> Result<(), Fail> {
    let mut turns = two(rt.alloc(), Countdown::refusing(11, 5, 2))?;
    let all = [Turn { job: 1, events: 9 }, Turn { job: 0, events: 9 }];
    assert_eq!(rt; turns.play(&all), Err(TurnFault::Memory));
    assert!(rt; !turns.finished(0));
    assert!(rt; !turns.finished(1));
    assert_eq!(rt; turns.play(&all), Ok(()));
    assert!(rt; turns.finished(0));
    assert!(rt; turns.finished(1));
    Ok(())
}

#[test]
fn answers_are_given_at_the_end(rt: HostRuntime) -> Result<(), Fail> {
    let mut jobs = Jobs::new(rt.alloc());
    jobs.push(Countdown::new(10, 0))
        .map_err(|refused| refused.1)?;
    jobs.push(Countdown::new(9, 0))
        .map_err(|refused| refused.1)?;
    let answers = Turns::new(jobs).finish(rt.alloc())?;
    assert_eq!(rt; answers.as_slice(), [10, 9].as_slice());
    Ok(())
}

#[test]
fn halves_are_found_by_turns(rt: HostRuntime) -> Result<(), Fail> {
    let halves = all_halves(rt.alloc(), &[0, 1, 7, 10], 2)?;
    assert_eq!(rt; halves.as_slice(), [0, 0, 3, 5].as_slice());
    Ok(())
}
