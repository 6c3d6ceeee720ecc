ghost use Rattle.std.specs.Prelude.{◌≡◌, ◌≤◌, length, map, true, false, OnOk};
ghost use Rattle.fx_base.specs.Faults.{HasCause};
ghost use Rattle.fx_base.specs.Writing.{Appends, AppendsPart};
ghost use Rattle.fx_base.specs.Acts.{Shelves, ShelvesPart, acts_of, WholeFile, FileByte};
ghost use Rattle.fx_base.specs.Pieces.{joined};

use crate::failed::Failed;
use crate::shelf::Shelf;
use crate::sink::Sink;
use crate::values::Bytes;

/// Writes the whole piece. After a failed call a prefix of it was appended, and no further call
/// is made.
pub fn write_all<K: Sink>(sink: &mut K, piece: &[u8]) -> Result<(), Failed>
    ensures done { OnOk result (Appends (K.written sink.old) (K.written sink.new) piece.now) }
    ensures part { AppendsPart (K.written sink.old) (K.written sink.new) piece.now }
    ensures cause { HasCause (K.faults sink.old) (K.faults sink.new) result }
    ensures unchanged { K.room sink.new ≡ K.room sink.old }
{
    let mut from = 0;
    while from < piece.len() {
        from += sink.write(&piece[from..])?;
    }
    Ok(())
}

/// Shelves a whole file, ended. After a failed call a prefix of its acts was done, and no
/// further call is made.
pub fn shelve<F: Shelf>(shelf: &mut F, name: &[u8], content: &[u8]) -> Result<(), Failed>
    requires none { F.begun shelf.old ≡ false }
    requires name { (1 ≤ length name.now) × (length name.now ≤ 64) }
    ensures done { OnOk result
        (Shelves (F.files shelf.old) (F.files shelf.new) (acts_of (WholeFile name.now content.now))) }
    ensures state { OnOk result (F.begun shelf.new ≡ false) }
    ensures part { ShelvesPart (F.files shelf.old) (F.files shelf.new)
        (acts_of (WholeFile name.now content.now)) }
    ensures cause { HasCause (F.faults shelf.old) (F.faults shelf.new) result }
    ensures unchanged { F.room shelf.new ≡ F.room shelf.old }
{
    shelf.begin(name)?;
    fill(shelf, content)?;
    shelf.end()?;
    Ok(())
}

/// The same of a file whose content is these pieces, one after another.
pub fn shelve_pieces<F: Shelf>(shelf: &mut F, name: &[u8], pieces: &[Bytes]) -> Result<(), Failed>
    requires none { F.begun shelf.old ≡ false }
    requires name { (1 ≤ length name.now) × (length name.now ≤ 64) }
    ensures done { OnOk result
        (Shelves (F.files shelf.old) (F.files shelf.new) (acts_of (WholeFile name.now (joined pieces.now)))) }
    ensures state { OnOk result (F.begun shelf.new ≡ false) }
    ensures part { ShelvesPart (F.files shelf.old) (F.files shelf.new)
        (acts_of (WholeFile name.now (joined pieces.now))) }
    ensures cause { HasCause (F.faults shelf.old) (F.faults shelf.new) result }
    ensures unchanged { F.room shelf.new ≡ F.room shelf.old }
{
    shelf.begin(name)?;
    fill_from(shelf, pieces)?;
    shelf.end()?;
    Ok(())
}

/// Appends the bytes of these pieces, one after another, to the file that is begun.
fn fill_from<F: Shelf>(shelf: &mut F, pieces: &[Bytes]) -> Result<(), Failed>
    requires { F.begun shelf.old ≡ true }
    ensures done { OnOk result
        (Shelves (F.files shelf.old) (F.files shelf.new) (map FileByte (joined pieces.now))) }
    ensures state { OnOk result (F.begun shelf.new ≡ true) }
    ensures part { ShelvesPart (F.files shelf.old) (F.files shelf.new)
        (map FileByte (joined pieces.now)) }
    ensures cause { HasCause (F.faults shelf.old) (F.faults shelf.new) result }
    ensures unchanged { F.room shelf.new ≡ F.room shelf.old }
{
    for piece in pieces {
        fill(shelf, piece.as_slice())?;
    }
    Ok(())
}

/// Appends these bytes to the file that is begun.
fn fill<F: Shelf>(shelf: &mut F, content: &[u8]) -> Result<(), Failed>
    requires { F.begun shelf.old ≡ true }
    ensures done { OnOk result
        (Shelves (F.files shelf.old) (F.files shelf.new) (map FileByte content.now)) }
    ensures state { OnOk result (F.begun shelf.new ≡ true) }
    ensures part { ShelvesPart (F.files shelf.old) (F.files shelf.new) (map FileByte content.now) }
    ensures cause { HasCause (F.faults shelf.old) (F.faults shelf.new) result }
    ensures unchanged { F.room shelf.new ≡ F.room shelf.old }
{
    let mut from = 0;
    while from < content.len() {
        from += shelf.write(&content[from..])?;
    }
    Ok(())
}
