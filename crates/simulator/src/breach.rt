//! What of the promise does not hold.
use thiserror::Error;

/// What of the promise does not hold after an event. What the calls are answered, and what the images hold, is no matter of it.
#[derive(Clone, Copy, Debug, PartialEq, Eq, Error)]
pub enum Breach {
    #[error("an event that is not enabled changed something")]
    Changed,
    #[error("the list was not cut where the image stands that serves")]
    List,
    #[error("a released call is not in the image of each node")]
    Uncovered,
    #[error("a device holds no whole image")]
    Damaged,
    #[error("an image has another role or epoch than its node")]
    Role,
    #[error("an image holds more than the list")]
    Ahead,
    #[error("the device of a fenced primary changed")]
    Succeeded,
    #[error("the device of a node that has stopped changed")]
    Stopped,
    #[error("a crash of a node that had stopped left neither the image from before nor the one after")]
    Between,
    #[error("the run ended though no fence was to fail unasked")]
    Ended,
    #[error("a node over an older image refused for another cause than that")]
    Cause,
    #[error("an image changed though the link was refused, or that of a primary")]
    Touched,
    #[error("a primary that lacks a released call was not refused")]
    Older,
    #[error("a standby does not hold what its primary holds once nothing is left to send")]
    Apart,
}
