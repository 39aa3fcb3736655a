// The print of a job: text put into lent bytes, and the lines that are put so. Uses `lists`, `places`, `slots` and `machine`.
#![tactic(auto)]

mod lines;
mod text;

pub use lines::{
    END_BYTES, REFUSAL_BYTES, SIZES_BYTES, put_answer, put_end, put_refusal, put_sizes,
};
pub use text::Out;
