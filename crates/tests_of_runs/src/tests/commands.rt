//! Each command once: its words, its input, its status and what it writes.

use super::over_memory::{MADE, SOLVED, input_with, run_on};
use sequencer::Status;
use std::test::Fail;

// Words, what follows the two strips in the input, the status and what is written.
const ROWS: [(&str, &str, Status, &str); 7] = [
    ("solve", "", Status::Done, SOLVED),
    (
        "solve --budget 1",
        "end",
        Status::Refused,
        "refused 6 line 13\n",
    ),
    ("check", SOLVED, Status::Done, "accepted\ngain 2000/20\n"),
    (
        "check",
        "Best\n",
        Status::Rejected,
        "rejected rule 0 at 1\n",
    ),
    ("score", "strips 0\nend\n", Status::Done, "gain 0/20\n"),
    ("make --seed 7 --size 2", "", Status::Done, MADE),
    (
        "trial --seed 7 --size 2",
        "",
        Status::Done,
        "trial 7 2\nOptimal\ngain 122500/20\naccepted\n",
    ),
];

#[test]
fn each_command_does_its_job(rt: HostRuntime) -> Result<(), Fail> {
    for (line, rest, status, output) in ROWS {
        let input = input_with(rt.alloc(), rest)?;
        let (found, written) = run_on(rt.alloc(), line, &input)?;
        assert_eq!(rt; found, status, "{line}");
        assert_eq!(rt; written.as_slice(), output.as_bytes(), "{line}");
    }
    Ok(())
}
