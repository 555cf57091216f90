//! A drive: a list of steps over a text, all of which a number gives.
use crate::drives::act::Act;
use crate::drives::sides::Sides;
use crate::drives::text::{settings, text};
use ecma_samples::Random;
use std::alloc::{AllocError, Global};

/// How many steps a drive has.
const STEPS: usize = 60;

/// What came of the drives.
#[derive(Clone, Copy, Debug)]
pub struct Tally {
    pub saves: u64,
    pub backs: u64,
    pub differ: u64,
}

impl Tally {
    pub fn new() -> Tally {
        Tally {
            saves: 0,
            backs: 0,
            differ: 0,
        }
    }
}

fn save(sides: &mut Sides, tally: &mut Tally) -> Result<bool, AllocError> {
    tally.saves = tally.saves.saturating_add(1);
    sides.save()?;
    Ok(true)
}

/// Goes back, where there is a place to go back to; whether both sides do.
fn back(sides: &mut Sides, random: &mut Random, tally: &mut Tally) -> Result<bool, AllocError> {
    if sides.len() == 0 {
        return Ok(true);
    }
    tally.backs = tally.backs.saturating_add(1);
    sides.back(random.below(sides.len()))
}

/// Does the next step; whether both sides answer the same.
fn step(sides: &mut Sides, random: &mut Random, tally: &mut Tally) -> Result<bool, AllocError> {
    match random.below(10) {
        0 | 1 => save(sides, tally),
        2 => back(sides, random, tally),
        _ => sides.act(Act::next(random)),
    }
}

/// Does the steps; whether both sides answer the same, and show and have the same behind each.
fn steps(sides: &mut Sides, random: &mut Random, tally: &mut Tally) -> Result<bool, AllocError> {
    for _ in 0..STEPS {
        if !step(sides, random, tally)? || !sides.are_same()? {
            return Ok(false);
        }
    }
    sides.end_same()
}

/// Plays the drive of this number; whether both sides are the same all the way.
pub fn drive(alloc: Global, number: u64, tally: &mut Tally) -> Result<bool, AllocError> {
    let mut random = Random::new(number);
    let settings = settings(&mut random);
    let text = text(alloc, &mut random)?;
    let mut sides = Sides::new(alloc, settings, text.as_str())?;
    let same = steps(&mut sides, &mut random, tally)?;
    if !same {
        tally.differ = tally.differ.saturating_add(1);
    }
    Ok(same)
}
