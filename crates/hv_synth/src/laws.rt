//! What holds of generated video. No function here does anything: each contract names a law, which
//! is thereby proved.

ghost use Rattle.hv_synth.specs.GeneratorLaws.{GeneratedIsVideo};

/// Generated video has as many pictures as were asked for, each whole and of bytes, and none where
/// no generator is named. Its bytes read as its pictures, and nothing is left over.
pub fn generated_is_video()
    ensures { GeneratedIsVideo }
{}
