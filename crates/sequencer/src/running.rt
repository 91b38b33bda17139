//! The top calls over any source and any sink: how a call begins, who searches, and what is written.

ghost use Rattle.std.specs.Prelude.{◌≡◌, ◌↔◌, List, Option, ℕ, IfOk, IsErrOf};
ghost use Rattle.seq_io.specs.Count.{HasCause};
ghost use Rattle.seq_io.specs.Sink.{Appends};
ghost use Rattle.seq_io.specs.Source.{Consumes};
ghost use Rattle.command_line.specs.Job.{texts, IsJob};
ghost use Rattle.command_line.specs.Ranges.{Fits};
ghost use Rattle.command_line.specs.declared.job.Job.{Job};
ghost use Rattle.sequencer.specs.Opening.{Begins, Comes, IsSearchOfCall};
ghost use Rattle.sequencer.specs.Run.{Answers, Does, Runs, as_asked, alone, with_workers};
ghost use Rattle.sequencer.specs.Solving.{Solves};
ghost use Rattle.sequencer.specs.declared.stop.Stop.TheVariants.{ReadFault};
ghost use Rattle.sequencer.specs.declared.stop.Unanswered.TheVariants.{Stopped};
ghost use Rattle.sequencer.specs.declared.task.Task.{Task};

use crate::Status;
use crate::answer::Answer;
use crate::answering::begin;
use crate::opening::Opening;
use crate::solving::{solve, solve_alone};
use crate::stop::{Stop, Unanswered};
use command_line::{Job, JobRefusal, job_of};
use pool::{Gate, OpenGate};
use seq_io::{Sink, Source, write_whole};
use std::alloc::{AllocError, Global};
use std::sync::Wait;
use std::thread::Threads;

/// Runs the program: finds the job that the words ask for, reads all that it reads, and writes its answer at once. `words`
/// leaves out the program's name. To solve with workers it starts threads, and may wait for them.
pub fn run<R: Threads + Wait + Sync, S: Source, K: Sink>(
    rt: &R,
    alloc: Global,
    words: &[String],
    source: &mut S,
    sink: &mut K,
) -> Status
    ensures run { (taken : List ℕ) × (written : List ℕ)
        × Consumes (S.left source.old) (S.left source.new) taken
        × Appends (K.written sink.old) (K.written sink.new) written
        × Runs as_asked (texts words.now) (S.left source.new) taken written result }
    ensures read_fault { HasCause (S.faults source.old) (S.faults source.new) (result ≡ Status.ReadFault) }
    ensures write_fault { HasCause (K.faults sink.old) (K.faults sink.new) (result ≡ Status.WriteFault) }
{
    run_gated(rt, alloc, words, source, sink, &OpenGate)
}

/// The same, where each worker asks this gate before each of its calls on the board.
pub fn run_gated<R: Threads + Wait + Sync, S: Source, K: Sink, G: Gate + Sync>(
    rt: &R,
    alloc: Global,
    words: &[String],
    source: &mut S,
    sink: &mut K,
    gate: &G,
) -> Status
    ensures run { (taken : List ℕ) × (written : List ℕ)
        × Consumes (S.left source.old) (S.left source.new) taken
        × Appends (K.written sink.old) (K.written sink.new) written
        × Runs as_asked (texts words.now) (S.left source.new) taken written result }
    ensures read_fault { HasCause (S.faults source.old) (S.faults source.new) (result ≡ Status.ReadFault) }
    ensures write_fault { HasCause (K.faults sink.old) (K.faults sink.new) (result ≡ Status.WriteFault) }
{
    deliver(sink, answer_as_asked(rt, alloc, words, source, gate))
}

/// The same, where one thread does all, whatever number of workers the words ask for. It waits for nobody and returns.
pub fn run_alone<S: Source, K: Sink>(
    alloc: Global,
    words: &[String],
    source: &mut S,
    sink: &mut K,
) -> Status
    ensures run { (taken : List ℕ) × (written : List ℕ)
        × Consumes (S.left source.old) (S.left source.new) taken
        × Appends (K.written sink.old) (K.written sink.new) written
        × Runs alone (texts words.now) (S.left source.new) taken written result }
    ensures read_fault { HasCause (S.faults source.old) (S.faults source.new) (result ≡ Status.ReadFault) }
    ensures write_fault { HasCause (K.faults sink.old) (K.faults sink.new) (result ≡ Status.WriteFault) }
{
    deliver(sink, answer_alone(alloc, words, source))
}

// The answer of a call, where as many workers search as are asked for.
fn answer_as_asked<R: Threads + Wait + Sync, S: Source, G: Gate + Sync>(
    rt: &R,
    alloc: Global,
    words: &[String],
    source: &mut S,
    gate: &G,
) -> Result<Answer, Unanswered>
    ensures comes { (taken : List ℕ) × Consumes (S.left source.old) (S.left source.new) taken
        × Comes (λ workers. workers) (texts words.now) (S.left source.new) taken result }
    ensures cause { HasCause (S.faults source.old) (S.faults source.new) (IsErrOf result (Stopped ReadFault)) }
{
    match begin_call(alloc, words, source) {
        Err(why) => Err(why),
        Ok(Opening::Answered(answer)) => Ok(answer),
        Ok(Opening::Search(task)) => or_stopped(solve(rt, alloc, &task, gate)),
    }
}

// The answer of a call, where one thread does all.
fn answer_alone<S: Source>(
    alloc: Global,
    words: &[String],
    source: &mut S,
) -> Result<Answer, Unanswered>
    ensures comes { (taken : List ℕ) × Consumes (S.left source.old) (S.left source.new) taken
        × Comes (λ workers. 0) (texts words.now) (S.left source.new) taken result }
    ensures cause { HasCause (S.faults source.old) (S.faults source.new) (IsErrOf result (Stopped ReadFault)) }
{
    match begin_call(alloc, words, source) {
        Err(why) => Err(why),
        Ok(Opening::Answered(answer)) => Ok(answer),
        Ok(Opening::Search(task)) => or_stopped(solve_alone(alloc, &task)),
    }
}

// The answer of a search, or that it stopped for want of memory.
fn or_stopped(answer: Result<Answer, AllocError>) -> Result<Answer, Unanswered>
    ensures comes { (counted : ℕ → ℕ) (words : List (List ℕ)) (left : Option (List ℕ)) (taken : List ℕ) (t : Task) → IsSearchOfCall words left taken t
        → IfOk answer (λ a. Solves (counted t.workers) t.budget t.cut taken a.text.items a.status) → Comes counted words left taken result }
    ensures read { IsErrOf result (Stopped ReadFault) → ⊥ }
{
    match answer {
        Ok(answer) => Ok(answer),
        Err(AllocError) => Err(Unanswered::Stopped(Stop::Memory)),
    }
}

// Finds the job that the words ask for, and begins with it.
fn begin_call<S: Source>(
    alloc: Global,
    words: &[String],
    source: &mut S,
) -> Result<Opening, Unanswered>
    ensures begins { (taken : List ℕ) × Consumes (S.left source.old) (S.left source.new) taken
        × Begins (texts words.now) (S.left source.new) taken result }
    ensures cause { HasCause (S.faults source.old) (S.faults source.new) (IsErrOf result (Stopped ReadFault)) }
{
    match job_of(alloc, words) {
        Err(JobRefusal::Usage) => Err(Unanswered::Usage),
        Err(JobRefusal::Memory) => Err(Unanswered::Unread),
        Ok(job) => begin_job(alloc, job, source),
    }
}

// Begins with a job, or tells that it stopped.
fn begin_job<S: Source>(alloc: Global, job: Job, source: &mut S) -> Result<Opening, Unanswered>
    requires { Fits job }
    ensures begins { (words : List (List ℕ)) → IsJob words job → (taken : List ℕ) × Consumes (S.left source.old) (S.left source.new) taken
        × Begins words (S.left source.new) taken result }
    ensures cause { HasCause (S.faults source.old) (S.faults source.new) (IsErrOf result (Stopped ReadFault)) }
{
    match begin(alloc, job, source) {
        Ok(opening) => Ok(opening),
        Err(stop) => Err(Unanswered::Stopped(stop)),
    }
}

// Writes the answer, or tells by the status alone why there is none.
fn deliver<K: Sink>(sink: &mut K, answer: Result<Answer, Unanswered>) -> Status
    ensures runs { (counted : ℕ → ℕ) (words : List (List ℕ)) (left : Option (List ℕ)) (taken : List ℕ) → Comes counted words left taken answer
        → (written : List ℕ) × Appends (K.written sink.old) (K.written sink.new) written
        × Runs (with_workers counted) words left taken written result }
    ensures read_fault { (counted : ℕ → ℕ) (words : List (List ℕ)) (left : Option (List ℕ)) (taken : List ℕ) → Comes counted words left taken answer
        → (result ≡ Status.ReadFault) ↔ IsErrOf answer (Stopped ReadFault) }
    ensures write_fault { (counted : ℕ → ℕ) (words : List (List ℕ)) (left : Option (List ℕ)) (taken : List ℕ) → Comes counted words left taken answer
        → HasCause (K.faults sink.old) (K.faults sink.new) (result ≡ Status.WriteFault) }
{
    match answer {
        Err(why) => why.status(),
        Ok(answer) => put(sink, answer),
    }
}

// Writes an answer at once.
fn put<K: Sink>(sink: &mut K, answer: Answer) -> Status
    ensures does { (job : Job) (left : Option (List ℕ)) (taken : List ℕ) → Answers job left taken answer.text.items answer.status
        → (written : List ℕ) × Appends (K.written sink.old) (K.written sink.new) written × Does job left taken written result }
    ensures read_fault { (job : Job) (left : Option (List ℕ)) (taken : List ℕ) → Answers job left taken answer.text.items answer.status
        → result ≡ Status.ReadFault → ⊥ }
    ensures write_fault { (job : Job) (left : Option (List ℕ)) (taken : List ℕ) → Answers job left taken answer.text.items answer.status
        → HasCause (K.faults sink.old) (K.faults sink.new) (result ≡ Status.WriteFault) }
{
    match write_whole(sink, &answer.text) {
        Ok(()) => answer.status,
        Err(_) => Status::WriteFault,
    }
}
