//! The top call of Iguana: from the words of a command to the text of a grammar or of a forest, or
//! to what is said of one.
//!
//! [`iguana`] does all that the program does, over a shelf, from which it fetches a grammar, an
//! input and the text of a forest, and two sinks, for its output and its notes. Its contract says
//! of every answer when it comes, and of the forest that it prints that it is the reduced one,
//! which unfolds at every depth to exactly the derivation trees that the grammar permits; of a
//! forest that it verifies, that each of its trees is permitted. `specs/Headline.antt` has these
//! theorems, `specs/Outcome.antt` all answers. What these rest on, `specs/Held.antt` says: what is
//! held under the names that the words give ([`outcomes_rest_on_names`]).
//!
//! What the words ask for, `ig_command` says. Files are fetched and read by `ig_command_sources`;
//! what comes of a grammar, or of a grammar and an input, is `ig_command_jobs`; how a command ends,
//! and what is then written, `ig_command_endings`.
//!
//! [`batch`] is the command of that name. It fetches a list of jobs, and of each job its grammar
//! and, where that is accepted, its input. Then the jobs take turns until all are finished; a job
//! whose grammar or input is refused is finished from the beginning. `specs/Ends.antt` says how
//! each job ends: as `forest` would with its files alone and the same budget, so that no job
//! changes what another one gives. `specs/Text.antt` says what out gets of that, and
//! `specs/Files.antt` which files are fetched. Grammar texts with the same bytes are read once.
#![tactic(auto)]

mod grammars;
mod laws;
mod loading;
mod playing;
mod run;
mod text;
mod top_call;

pub use laws::outcomes_rest_on_names;
pub use run::batch;
pub use top_call::iguana;
