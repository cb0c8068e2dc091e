//! The numbers by which signatures are looked up.

ghost use Rattle.std.specs.Prelude.{◌≡◌, ◌<◌, All};
ghost use Rattle.esc_union.specs.Merges.{class_number};
ghost use Rattle.esc_egraph.specs.KeysInside.{key_of};

use esc_nodes::Top;
use esc_term::mix;
use esc_union::{Node, Partition};

/// The key of a top over the classes of some arguments, in 32 bits.
pub(crate) fn signature_key(classes: &Partition, top: Top, args: &[Node]) -> usize
    requires { All (λ a. a < classes.now.count) args.now }
    ensures { result ≡ key_of (class_number classes.now.merges)
        (record { top = top; args = args.now }) }
{
    let mut key = top.digest();
    'words: for arg in args {
        key = mix(key, classes.root(*arg).index() as u64);
    }
    (key % 0x1_0000_0000) as usize
}
