//! The bytes of a model's memory.
ghost use Rattle.std.specs.Prelude.{◌≡◌};
ghost use Rattle.machine_spec.specs.StateText.{AreRising};
ghost use Rattle.table_run.specs.Traces.{byte_over};

/// The bytes of a model's memory: those that are listed, by rising addresses, and the fill at all others.
#[derive(Clone, Copy)]
pub(crate) struct ModelBytes<'a> {
    pub(crate) fill: u8,
    pub(crate) bytes: &'a [(u32, u8)],
}

/// The byte at an address.
pub(crate) fn byte_of(model: &ModelBytes, a: u32) -> u8
    requires { AreRising model.now.bytes.now }
    ensures { result ≡ byte_over model.now.fill model.now.bytes.now a }
{
    let i = model.bytes.partition_point(|x| x.0 < a);
    if i == model.bytes.len() {
        return model.fill;
    }
    if model.bytes[i].0 != a {
        return model.fill;
    }
    model.bytes[i].1
}
