// The refusals of a Metadata PDU whose body is whole.
ghost use Rattle.std.specs.Prelude.{◌≡◌};
ghost use Rattle.laws.specs.First.{first_of};
ghost use Rattle.codes.specs.Refusals.{refusal_of};
ghost use Rattle.inserting.specs.Metadata.{names_order, remote_known, rest_refusal};

use bodies::metadata::MetadataPdu;
use codes::Refusal;
use config::Config;

// Whether the names are refused: 10 (both empty), 16, 17 or 18.
fn names_refusal(source: &[u8], dest: &[u8]) -> Result<(), Refusal>
    ensures { refusal_of result ≡ first_of (names_order source.now dest.now) }
{
    if source.is_empty() {
        if dest.is_empty() {
            return Err(Refusal::NotSupported);
        }
        return Err(Refusal::NoSourceName);
    }
    if dest.is_empty() {
        return Err(Refusal::NoDestName);
    }
    utf8::check(source)?;
    utf8::check(dest)?;
    Ok(())
}

// Whether the table has an entry for the source.
fn known(config: Config, source: u64) -> bool
    ensures { result ≡ remote_known config source }
{
    config::is_known(config.remotes(), source)
}

// Whether a whole Metadata body is refused: 15, the names', or 10 (Message to User).
pub fn refusal(config: Config, source: u64, field: &[u8], m: MetadataPdu) -> Result<(), Refusal>
    ensures { refusal_of result ≡ rest_refusal config source field.now m }
{
    if !known(config, source) {
        return Err(Refusal::UnknownSource);
    }
    names_refusal(
        bodies::metadata::name(field, m.sourceat),
        bodies::metadata::name(field, m.destat),
    )?;
    if m.message {
        return Err(Refusal::NotSupported);
    }
    Ok(())
}
