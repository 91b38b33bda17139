//! Words with their jobs, and without one.

use command_line::{Job, JobRefusal, fault_line, job_of};
use std::alloc::{AllocError, Global};
use std::test::Fail;

fn words_in(alloc: Global, line: &str) -> Result<Vec<String>, AllocError> {
    let mut words = Vec::new(alloc);
    for word in line.split_whitespace() {
        words.push(String::from_str(alloc, word)?)?;
    }
    Ok(words)
}

// Words in the plain form, and others, with their jobs.
const JOBS: [(&str, Job); 6] = [
    ("check", Job::Check),
    ("make --size 3 --seed 5", Job::Make { seed: 5, size: 3 }),
    ("--size=03 make --seed +5", Job::Make { seed: 5, size: 3 }),
    (
        "solve --seed 5",
        Job::Solve {
            workers: 0,
            budget: 200_000,
            cut: None,
        },
    ),
    (
        "--workers 032 solve --budget 2000000 --cut=1001000000",
        Job::Solve {
            workers: 32,
            budget: 2_000_000,
            cut: Some(1_001_000_000),
        },
    ),
    (
        "trial --workers 32",
        Job::Trial {
            seed: 1,
            size: 10,
            budget: 200_000,
            cut: None,
        },
    ),
];

#[test]
fn words_have_their_job(rt: HostRuntime) -> Result<(), Fail> {
    for (line, job) in JOBS {
        let words = words_in(rt.alloc(), line)?;
        assert_eq!(rt; job_of(rt.alloc(), &words), Ok(job), "{line}");
    }
    Ok(())
}

// Words without a job, with what is wrong of them.
const FAULTS: [(&str, &str); 5] = [
    ("", "a command is missing"),
    ("solv", "there is no command 'solv'"),
    ("make trial", "unexpected argument 'trial' found"),
    (
        "make --size",
        "a value is required for '--size <size>' but none was supplied",
    ),
    (
        "make --size 65",
        "invalid value '65' for '--size <size>': 65 is not in 0..=64",
    ),
];

#[test]
fn the_wrong_word_is_named(rt: HostRuntime) -> Result<(), Fail> {
    for (line, fault) in FAULTS {
        let words = words_in(rt.alloc(), line)?;
        assert_eq!(rt;
            job_of(rt.alloc(), &words),
            Err(JobRefusal::Usage),
            "{line}"
        );
        assert_eq!(rt; fault_line(rt.alloc(), &words)?.as_str(), fault, "{line}");
    }
    Ok(())
}
