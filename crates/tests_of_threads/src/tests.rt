//! What no clause says of shared values: that threads come through, and what is seen of what another one did.

mod drawn_numbers;
mod numbers_under_a_lock;
mod offered_plans;
