//! The names under which errors of exchanges are printed.

ghost use Rattle.std.specs.Prelude.{◌≡◌};
ghost use Rattle.rtp_media_program.specs.ExchangeErrorNames.{exchange_error_name};

use crate::memory_name::memory;
use crate::reply::ErrorName;
use rtp_media_exchange::ExchangeError;

/// The name of a refused exchange.
pub(crate) fn exchange_error_name(error: &ExchangeError) -> ErrorName
    ensures { result ≡ exchange_error_name error.now }
{
    match error {
        ExchangeError::Unreadable(_) => ErrorName::new("Unreadable"),
        ExchangeError::OutOfTurn => ErrorName::new("OutOfTurn"),
        ExchangeError::NotMedia(_) => ErrorName::new("NotMedia"),
        ExchangeError::NotCorresponding => ErrorName::new("NotCorresponding"),
        ExchangeError::Round(_) => ErrorName::new("Round"),
        ExchangeError::NoCommonRow(_) => ErrorName::new("NoCommonRow"),
        ExchangeError::NotWritable => ErrorName::new("NotWritable"),
        ExchangeError::Memory => memory(),
    }
}
