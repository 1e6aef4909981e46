//! Where a reading stands.

ghost use Rattle.std.specs.Prelude.{◌+◌, ◌<◌, ◌^◌, length};

/// The place in the payload, and the bytes from there to the end of what is read.
#[derive(Clone, Copy)]
pub(crate) struct At<'a> {
    pub(crate) place: usize,
    pub(crate) rest: &'a [u8],
    pub(crate) ghost inside: { place + length rest.now < 2 ^ 64 },
}
