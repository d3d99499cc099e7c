//! How an export opens a device.

/// Boxes a device that was made, and puts it into a handle by this function. Evaluates to what the export reports. The caller has `OK` in
/// scope.
#[macro_export]
macro_rules! open_device {
    ($alloc:expr, $device:expr, $made:expr => $put:ident) => {
        match $crate::boxed($alloc, $made) {
            Err(refused) => refused,
            Ok(opened) => {
                $put($device, opened);
                $crate::plain(OK)
            }
        }
    };
}
