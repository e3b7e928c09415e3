use nss_scopes::Heads;
use nwq_value::Table;
use std::alloc::Global;

/// What stays while bodies and values are typed: the header, and the declarations of the unit's
/// functions.
#[derive(Drop)]
pub struct Given<'u> {
    pub alloc: Global,
    pub table: &'u Table,
    pub heads: &'u Heads,
}
