use crate::handle::Handle;

/// The handle of a host, IF1 or IF2, or a place for one.
#[repr(C)]
#[derive(Drop)]
pub struct HostHandle {
    pub(crate) handle: Handle,
}
