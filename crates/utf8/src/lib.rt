// Text: well-formed UTF-8, lossy text and texts that are the same (the Unicode standard, section 3.9).
//
// No public call has a `requires`, and a refusal changes no byte. `rows` has the rows of table 3-7 and the step that they give, `step` what a step
// takes and stands for, `run` strides over many steps at once; the calls are in `well`, `replace` and `equal`.

#![tactic(auto)]

mod equal;
mod replace;
mod rows;
mod run;
mod step;
mod well;

pub use equal::same_text;
pub use replace::{has_room, lossy_text};
pub use well::is_utf8;
