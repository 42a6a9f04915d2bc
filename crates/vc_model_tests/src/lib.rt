//! Model text, from lines to whole models, called with ample memory.
#![tactic(auto)]

#[cfg(test)]
mod model;
#[cfg(test)]
mod model_drafts;
#[cfg(test)]
mod model_faults;
#[cfg(test)]
mod model_faults_line;
#[cfg(test)]
mod model_lines;
#[cfg(test)]
mod model_parts;
#[cfg(test)]
mod model_scope;
#[cfg(test)]
mod model_show;
