use thiserror::Error;

/// Why a plan isn't feasible: the rule that it breaks, and the place `k` of the acquisition that breaks it, counted from
/// 0. At one place the rules are tested in this order.
#[derive(Clone, Copy, Debug, PartialEq, Eq, Error)]
pub enum PlanFault {
    /// There is no such strip.
    #[error("the acquisition at place {k} is of no strip")]
    NoSuchStrip { k: u32 },
    /// The strip stands at an earlier place of the plan as well, in whichever direction.
    #[error("the strip at place {k} was acquired before")]
    Twice { k: u32 },
    /// The start is before the window.
    #[error("the acquisition at place {k} starts too early")]
    Early { k: u32 },
    /// The start is after the window.
    #[error("the acquisition at place {k} starts too late")]
    Late { k: u32 },
    /// The start leaves no time for the acquisition before and the manoeuvre after it.
    #[error("there is no time for the manoeuvre to the acquisition at place {k}")]
    Manoeuvre { k: u32 },
    /// The strip's twin isn't in the plan in the same direction.
    #[error("the twin of the strip at place {k} is missing")]
    Twin { k: u32 },
}
