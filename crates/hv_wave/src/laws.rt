//! What holds of every wave.
ghost use Rattle.hv_wave.specs.Segments.{WavesGoOn};

/// Where no segment is taken and none is ready, all are done: a wave never sticks.
pub fn goes_on_law()
    ensures { WavesGoOn }
{}
