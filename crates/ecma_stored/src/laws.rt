//! A law of the bytes of checkpoints, over the definitions alone.
ghost use Rattle.ecma_stored.specs.Stored.{CheckpointsAreToldApart};

/// Different checkpoints have different bytes, so that what is made of the bytes of a checkpoint is that checkpoint.
pub fn checkpoints_are_told_apart()
    ensures { CheckpointsAreToldApart }
{}
