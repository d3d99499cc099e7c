/// A call of an outside object failed. The object's fault count rose in that call.
#[derive(Clone, Copy, Debug, PartialEq, Eq)]
pub struct Failed;
