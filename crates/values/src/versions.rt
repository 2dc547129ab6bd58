// "An event version and a definition version count different things and are never compared."
#[derive(Clone, Copy, Debug, PartialEq, Eq, PartialOrd, Ord)]
pub struct EventVersion(pub u64);

#[derive(Clone, Copy)]
pub struct DefinitionVersion(pub u64);
