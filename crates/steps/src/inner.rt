// What crate `runs` calls beside the steps, of each version: the opcode by which a word is weighed, and the
// pass that settles entries. A pass asks for what a check of the sizes leaves, so that no entry of C or of a
// program is among them.
pub use crate::lua53::settling::settle_edges as settle_edges53;
pub use crate::lua53::successors::opcode_at as opcode_at53;
pub use crate::lua54::settling::settle_edges;
pub use crate::lua54::successors::opcode_at;
