ghost use Rattle.std.specs.Prelude.{◌≡◌, ◌<◌, ◌⊎◌, Ok, Err};
ghost use Rattle.fx_program.specs.declared.stop.Stop.TheVariants as stop;
ghost use Rattle.fx_program.specs.Output.{message};
ghost use Rattle.fx_program.specs.Outside.{Lists, sink_view};

use crate::stop::Stop;
use fx_base::{Sink, write_all};

/// Writes a piece of the listing, and returns the status.
///
/// # Errors
///
/// `Failed` where a call on the listing failed.
pub fn list<K: Sink>(listing: &mut K, bytes: &[u8], status: u8) -> Result<u8, Stop>
    requires { status < 4 }
    ensures status { (result ≡ Ok status) ⊎ (result ≡ Err stop.Failed) }
    ensures output { Lists (message bytes.now status)
        (sink_view K.Sink listing.old) (sink_view K.Sink listing.new) result }
{
    write_all(listing, bytes)?;
    Ok(status)
}
