//! Why not all links were served.

use vc_app_models::ModelStop;
use vc_outside::KeepFault;

/// Why not all links were served.
#[derive(Debug, Drop)]
pub enum Stop {
    /// The model has no plan.
    Model(ModelStop),
    /// The keeper couldn't be begun.
    Keeper(KeepFault),
    /// There was no memory for the bytes of a connection.
    OutOfMemory,
    /// The door failed.
    Door,
}
