// What the walks of all operations read in front of their words, written once: parents, and classes of names and pairs.
ghost use Rattle.selection.specs.Classes.{Prepares};

use crate::classes::write_classes;
use crate::parents::write_parents;

pub fn prepare(image: &[u32], s: &mut [u32])
    ensures { Prepares image.now s.old s.new }
{
    write_parents(image, s);
    write_classes(image, s);
}
