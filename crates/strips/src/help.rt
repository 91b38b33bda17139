//! What the program tells of itself.

/// What `strips --help` writes.
pub(crate) const HELP: &str =
    "strips: the best plan for one orbit of an agile Earth observation satellite, with a proof that can be checked

usage: strips COMMAND [--workers N] [--budget N] [--cut N] [--seed N] [--size N]

Commands. They read standard input and write standard output.
  solve   reads an instance; writes `Optimal`, the plan and its log, or `Best` and a plan, where the budget is reached
  check   reads an instance and the answer of `solve` behind it; accepts its log, or names the rule that it breaks
  score   reads an instance and a plan behind it; writes the gain, or the first rule that the plan breaks
  make    writes an example instance
  trial   makes an example instance, solves it and checks the log

Options, each at most once. A command ignores those that it doesn't use.
  --workers N   solve: threads that search together, 0 to 32; with 0, the default, one thread does all, faster today
  --budget N    solve, trial: labels (partial sequences) that are kept, 1 to 2000000, 200000 by default
  --cut N       solve, trial: the tick at which the orbit is cut in two; half the horizon by default
  --seed N      make, trial: 0 to 4294967295, 1 by default
  --size N      make, trial: the number of strips, 0 to 64, 10 by default

Exit statuses: 0 done, 1 `Best` was written, 2 usage, 3 input refused, 4 plan or log rejected, 5 standard input could not be
read, 6 standard output could not be written, 7 out of memory.

Times are in ticks, gains in twentieths (`gain 2000/20` is 100). The formats of instances, plans and answers are described in
docs/FORMATS.md, and what the numbers in them mean.
";

/// What `strips --version` writes.
pub(crate) const VERSION: &str = "strips 1 (instance format `orbit 1`)\n";
