//! How a call reads the device of a handle.

/// Takes the device out of a handle, reads it, and puts it back. Reports what was read as this kind of result does (`read`); if the handle
/// has no device, that status (`unread`). The caller has the functions `take_out` and `put_in` of its handle in scope.
#[macro_export]
macro_rules! read_device {
    ($kind:ident, $alloc:expr, $device:expr, $opened:ident => $read:expr) => {
        match take_out($alloc, $device) {
            None => $kind::unread($crate::NO_DEVICE),
            Some($opened) => {
                let read = $read;
                put_in($device, $opened);
                $kind::read(read)
            }
        }
    };
}
