// A file that a caller lends.

/// The name and the text of a file, which the caller lends, in a form that crosses to C.
#[repr(C)]
#[derive(Drop)]
pub struct File<'a> {
    /// The name by which it is loaded.
    pub name: &'a [u8],
    /// Its content.
    pub text: &'a [u8],
}
