// What the commands of the program mlkem share.
#![tactic(auto)]

pub mod answers; // refused calls
pub mod arguments; // the words of the command line
pub mod desk; // what the program reaches outside itself
mod files; // files by their paths
pub mod inputs; // files, read whole
pub mod mask_file; // the file of masks for import and refreshing
pub mod messages; // lines on standard error
pub mod outputs; // files, written whole
pub mod replacement; // a file of secrets, replaced by a new one
pub mod sets; // the parameter sets: their names, and the sizes of what their calls are lent
pub mod split_file; // the file of a split key with its use limit and its count
pub mod split_packing; // a split key as bytes
pub mod state_packing; // a split key with its use limit and its count, as bytes
pub mod strip_file; // the file of a strip
