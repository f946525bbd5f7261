//! The class of a length: the least power of two that isn't below it.
ghost use Rattle.std.specs.Prelude.{◌≡◌, ◌<◌, ◌≤◌};
ghost use Rattle.edge_pool.specs.Classes.{class_of, size_of, class_count, most_len, IsLen};

/// How many classes there are, so that the longest block has [`MAX_LEN`] cells.
pub const CLASSES: usize = 23;

/// The length of the longest block.
pub const MAX_LEN: u32 = 4_194_304;

/// The first class whose size isn't below the length.
pub fn class_of_len(len: u32) -> usize
    requires { IsLen len }
    ensures is { result ≡ class_of len }
    ensures known { result < class_count }
    ensures fits { len ≤ size_of result }
{
    if len == 1 {
        return 0;
    }
    (len - 1).ilog2() as usize + 1
}

/// The cells of a block of a class.
pub fn size_of_class(class: usize) -> u32
    requires { class < class_count }
    ensures is { result ≡ size_of class }
    ensures bound { result ≤ most_len }
{
    1 << class
}
