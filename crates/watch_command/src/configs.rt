//! What a session is made of, once more.
ghost use Rattle.std.specs.Prelude.{◌≡◌, IfOk};

use protocol::Text;
use session::{Bytes, Config};
use std::alloc::{AllocError, Global};

/// A copy. It fails where no memory is left.
pub(crate) fn copy_of(alloc: Global, config: &Config) -> Result<Config, AllocError>
    ensures { IfOk result (λ copy. copy ≡ config.now) }
{
    let program = match &config.program {
        None => None,
        Some((path, text)) => Some((text_of(alloc, path)?, bytes_of(alloc, text)?)),
    };
    Ok(Config {
        memory_size: config.memory_size,
        program,
    })
}

fn text_of(alloc: Global, text: &Text) -> Result<Text, AllocError>
    ensures { IfOk result (λ copy. copy ≡ text.now) }
{
    Ok(Text::from_string(String::from_str(alloc, text.as_str())?))
}

fn bytes_of(alloc: Global, bytes: &Bytes) -> Result<Bytes, AllocError>
    ensures { IfOk result (λ copy. copy ≡ bytes.now) }
{
    Ok(Bytes::from_vec(Vec::from_slice(alloc, bytes.as_slice())?))
}
