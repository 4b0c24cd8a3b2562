//! Laws on what an audit tells. Each is the contract of a function that does nothing.
//!
//! On an audit after a run (`HasRun`): of each object that the run carried nothing is found but
//! that it stands (`what_was_carried_is_the_same`). So an audit's log has only what stands and what
//! is passed over, where the run found no place taken (`audit_after_run_is_sound`).
ghost use Rattle.pt_audit.specs.AuditLaws.{AuditAfterRunIsSound, SoundAuditMeansAllStand};
ghost use Rattle.pt_audit.specs.AuditLaws.{WhatWasCarriedIsTheSame};

/// Where an audit's log has no object that is absent or differs, each object of the store that a
/// run would carry stands in the root, byte for byte, but for what its inventory says of its
/// version, and nothing else stands at its place.
pub fn sound_audit_means_all_stand()
    ensures { SoundAuditMeansAllStand }
{}

/// Where a run from the same store ended well, and the storage root is as it left it, of each
/// object that it carried nothing is found but that it stands.
pub fn what_was_carried_is_the_same()
    ensures { WhatWasCarriedIsTheSame }
{}

/// So an audit after it has no object that is absent or differs, if the run found no place taken:
/// neither by what stood in the root before, nor by an earlier object of the same identifier.
pub fn audit_after_run_is_sound()
    ensures { AuditAfterRunIsSound }
{}
