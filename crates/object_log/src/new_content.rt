//! What the content of a new object is made of.
ghost use Rattle.std.specs.Prelude.{◌≡◌, ◌+◌, ◌++◌, [], length};
ghost use Rattle.object_log.specs.Contents.{bytes_of, length_of};

/// The content of a new object: three runs of bytes, one behind another. Up to the object's size its bytes are zero.
#[derive(Clone, Copy)]
pub struct NewContent<'a> {
    pub header: &'a [u8],
    pub first: &'a [u8],
    pub second: &'a [u8],
}

impl<'a> NewContent<'a> {
    /// Zeros alone.
    pub fn zeros() -> NewContent<'a>
        ensures bytes { bytes_of result ≡ [] }
        ensures length { length_of result ≡ 0 }
    {
        NewContent {
            header: &[],
            first: &[],
            second: &[],
        }
    }

    /// The bytes alone.
    #[tactic(auto, using(crate::proofs::Contents::whole_bytes, crate::proofs::Contents::whole_length))]
    pub fn whole(bytes: &'a [u8]) -> NewContent<'a>
        ensures bytes { bytes_of result ≡ bytes.now }
        ensures length { length_of result ≡ length bytes.now }
    {
        NewContent {
            header: bytes,
            first: &[],
            second: &[],
        }
    }

    /// A header with the bytes behind it.
    #[tactic(auto, using(crate::proofs::Contents::two_bytes, crate::proofs::Contents::two_length))]
    pub fn behind(header: &'a [u8], bytes: &'a [u8]) -> NewContent<'a>
        ensures bytes { bytes_of result ≡ header.now ++ bytes.now }
        ensures length { length_of result ≡ length header.now + length bytes.now }
    {
        NewContent {
            header,
            first: bytes,
            second: &[],
        }
    }
}
