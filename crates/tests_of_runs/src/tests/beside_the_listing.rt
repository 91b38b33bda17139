//! Searches beside the plain program that lists all plans.

ghost use Rattle.std.specs.Prelude.{◌<◌};

use super::over_memory::run_on;
use instance_text::read;
use listing::best_plan;
use std::alloc::{AllocError, Global};
use std::test::Fail;
use strip_model::gain_of;

// The first two lines of an answer that gains as much as the best of all plans.
fn best_front(alloc: Global, text: &[u8]) -> Result<String, Fail> {
    if text.len() > 10_000 {
        return Err("the text is long".into());
    }
    let instance = read(alloc, text)?;
    let gain = gain_of(&instance, &best_plan(alloc, &instance)?);
    Ok(format!(in alloc; "Optimal\ngain {gain}/20\n")?)
}

// Whether `solve` comes to that gain with the cut in the middle, at the beginning and past the end.
fn is_solved(alloc: Global, text: &[u8]) -> Result<bool, Fail> {
    let front = best_front(alloc, text)?;
    for line in ["solve", "solve --cut 0", "solve --cut 1000"] {
        let (_, output) = run_on(alloc, line, text)?;
        if !output.starts_with(front.as_bytes()) {
            return Ok(false);
        }
    }
    Ok(true)
}

#[test]
fn made_instances_are_solved_as_by_listing(rt: HostRuntime) -> Result<(), Fail> {
    for line in [
        "make --size 0",
        "make --size 5",
        "make --seed 2 --size 6",
        "make --seed 0 --size 6",
    ] {
        let (_, text) = run_on(rt.alloc(), line, b"")?;
        assert!(rt; is_solved(rt.alloc(), &text)?, "{line}");
    }
    Ok(())
}

// Numbers that look as if they were drawn.
#[derive(Drop)]
struct Numbers(u32);

impl Numbers {
    fn below(&mut self, limit: u32) -> u32
        requires { 0 < limit }
        ensures { result < limit }
    {
        self.0 = self.0.wrapping_mul(1_664_525).wrapping_add(1_013_904_223);
        (self.0 >> 16) % limit
    }
}

// The text of four strips that stay open for long, so that they come in any order. The last two are twins.
fn crowded(alloc: Global, seed: u32) -> Result<Vec<u8>, AllocError> {
    let mut numbers = Numbers(seed);
    let mut text = Vec::new(alloc);
    text.extend_from_slice(b"orbit 1\nrequests 2\nr 3\nr 2\nstrips 4\n")?;
    for twin in ["0 -", "0 -", "1 3", "1 2"] {
        let area = numbers.below(9) + 1;
        let early = numbers.below(30);
        let late = early + numbers.below(30);
        let turned = numbers.below(30);
        // In the second direction half of the strips are closed.
        let until = if numbers.below(2) == 0 {
            0
        } else {
            turned + 20
        };
        let line = format!(in alloc; "s {twin} {area} {early} {late} 7 {turned} {until} 9\n")?;
        text.extend_from_slice(line.as_bytes())?;
    }
    text.extend_from_slice(b"manoeuvres\n")?;
    for x in 0..8_u16 {
        for y in 0..8_u16 {
            let entry = if x / 2 == y / 2 { b'0' } else { b'3' };
            text.push(entry)?;
            text.push(if y < 7 { b' ' } else { b'\n' })?;
        }
    }
    text.extend_from_slice(b"end\n")?;
    Ok(text)
}

#[test]
fn crowded_instances_are_solved_as_by_listing(rt: HostRuntime) -> Result<(), Fail> {
    for seed in 0..80_u32 {
        let text = crowded(rt.alloc(), seed)?;
        assert!(rt; is_solved(rt.alloc(), &text)?, "{seed}");
    }
    Ok(())
}
