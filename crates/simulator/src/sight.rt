//! What the devices of a pair show.
use crate::breach::Breach;
use crate::found::Found;
use crate::restoring::copied;
use crate::shown::Shown;
use machine::Node;
use model::{FIRST_EPOCH, ImageContents, Record, Role, read_image};
use std::alloc::{AllocError, Global};

/// Where an image stands: its node's role and epoch, and its position.
#[derive(Clone, Copy, Debug, PartialEq, Eq)]
struct Standing {
    role: Role,
    epoch: u64,
    position: u64,
}

impl Standing {
    fn of(record: &Record) -> Standing {
        Standing {
            role: record.role,
            epoch: record.epoch,
            position: record.position,
        }
    }

    /// Of a new image.
    fn new(role: Role) -> Standing {
        Standing {
            role,
            epoch: FIRST_EPOCH,
            position: 0,
        }
    }

    /// Whether it is that of a standby which was not promoted.
    fn stands_by(&self) -> bool {
        self.role == Role::Standby && self.epoch == FIRST_EPOCH
    }

    /// Whether it is that of a primary of this epoch.
    fn serves_in(&self, epoch: u64) -> bool {
        self.role == Role::Primary && self.epoch == epoch
    }
}

/// What one device shows.
#[derive(Drop)]
struct DeviceSight {
    shown: Shown,
    /// Where its image stood when it was looked at last and no fence had failed.
    standing: Standing,
    /// Where a fence failed since: where it stands by what was stored last.
    left: Option<Standing>,
    /// What it held when it was read last, until that is asked for.
    seen: Option<ImageContents>,
}

impl DeviceSight {
    fn new(shown: Shown, role: Role) -> DeviceSight {
        DeviceSight {
            shown,
            standing: Standing::new(role),
            left: None,
            seen: None,
        }
    }

    /// Reads the image, if a word was stored since it was last looked at, or a fence failed. Once one has failed nothing is stored until the device crashes.
    /// Returns what was seen.
    fn look(&mut self, alloc: Global, position: u64) -> Result<Glance, Found> {
        let fails = self.is_torn() && self.left.is_none();
        if !self.is_changed() && !fails {
            return Ok(Glance::SAME);
        }
        if self.is_torn() && !fails {
            return Err(Found::Breach(Breach::Stopped));
        }
        let found = self.read(alloc, position)?;
        self.stand(found, fails)?;
        Ok(Glance {
            is_changed: true,
            fails,
        })
    }

    /// Reads the image as it is now: it is whole, and holds nothing above this position, that of the list.
    fn read(&mut self, alloc: Global, position: u64) -> Result<Standing, Found> {
        let Some(contents) = read_shown(alloc, &self.shown)? else {
            return Err(Found::Breach(Breach::Damaged));
        };
        let standing = Standing::of(&contents.record);
        self.seen = Some(contents);
        if position < standing.position {
            return Err(Found::Breach(Breach::Ahead));
        }
        Ok(standing)
    }

    /// The image stands so, or would, where a fence fails. What a crash leaves after that stands as it did before, or so.
    fn stand(&mut self, found: Standing, fails: bool) -> Result<(), Breach> {
        if fails {
            self.left = Some(found);
            return Ok(());
        }
        if let Some(left) = self.left
            && found != left
            && found != self.standing
        {
            return Err(Breach::Between);
        }
        self.standing = found;
        self.left = None;
        Ok(())
    }

    /// Where it stands by what was stored last.
    fn newest(&self) -> Standing {
        match self.left {
            Some(left) => left,
            None => self.standing,
        }
    }

    /// Whether a fence was seen to fail and no crash since.
    fn has_stopped(&self) -> bool {
        self.left.is_some()
    }

    /// Its newest words.
    fn words(&self, alloc: Global) -> Result<Vec<u64>, AllocError> {
        match self.shown.try_borrow() {
            Ok(shown) => copied(alloc, shown.words.as_slice()),
            Err(_) => Ok(Vec::new(alloc)),
        }
    }

    /// Whether a word was stored since it was last looked at.
    fn is_changed(&self) -> bool {
        match self.shown.try_borrow() {
            Ok(shown) => shown.is_changed,
            Err(_) => false,
        }
    }

    /// Whether a fence failed since the device crashed last.
    fn is_torn(&self) -> bool {
        match self.shown.try_borrow() {
            Ok(shown) => shown.is_torn,
            Err(_) => false,
        }
    }
}

/// What was seen of a device, or of both.
#[derive(Clone, Copy, Debug)]
pub struct Glance {
    /// An image changed.
    pub is_changed: bool,
    /// A fence failed since it was looked at last.
    pub fails: bool,
}

impl Glance {
    const SAME: Glance = Glance {
        is_changed: false,
        fails: false,
    };

    fn and(self, other: Glance) -> Glance {
        Glance {
            is_changed: self.is_changed || other.is_changed,
            fails: self.fails || other.fails,
        }
    }
}

/// The image that a device shows, which was looked at by this; `None` where that is no whole image.
fn read_shown(alloc: Global, shown: &Shown) -> Result<Option<ImageContents>, AllocError> {
    let Ok(mut shown) = shown.try_borrow_mut() else {
        return Ok(None);
    };
    shown.is_changed = false;
    read_image(alloc, shown.words.as_slice())
}

/// What both devices show, and which node holds which.
#[derive(Drop)]
pub struct Sight {
    /// The device that was given as the primary's.
    first: DeviceSight,
    /// The device that was given as the standby's.
    second: DeviceSight,
    is_fenced: bool,
    is_promoted: bool,
}

impl Sight {
    /// Over two devices that are formatted.
    pub fn new(first: Shown, second: Shown) -> Sight {
        Sight {
            first: DeviceSight::new(first, Role::Primary),
            second: DeviceSight::new(second, Role::Standby),
            is_fenced: false,
            is_promoted: false,
        }
    }

    /// The primary does nothing more.
    pub fn fence(&mut self) {
        self.is_fenced = true;
    }

    /// Whether the standby was promoted, or crashed where its image was a primary's already.
    pub fn is_promoted(&self) -> bool {
        self.is_promoted
    }

    /// The newest words of the device that was given as this node's.
    pub fn words(&self, alloc: Global, node: Node) -> Result<Vec<u64>, AllocError> {
        self.device(node).words(alloc)
    }

    /// What the device that was given as this node's held when it was read, if it was since this was last asked for; and whether it has seen a fence fail,
    /// and no crash since.
    pub fn take_seen(&mut self, node: Node) -> Option<(ImageContents, bool)> {
        let device = match node {
            Node::Primary => &mut self.first,
            Node::Standby => &mut self.second,
        };
        let has_stopped = device.has_stopped();
        match device.seen.take() {
            Some(contents) => Some((contents, has_stopped)),
            None => None,
        }
    }

    /// Whether the device that was given as this node's has seen a fence fail, and no crash since.
    pub fn has_stopped(&self, node: Node) -> bool {
        self.device(node).has_stopped()
    }

    fn device(&self, node: Node) -> &DeviceSight {
        match node {
            Node::Primary => &self.first,
            Node::Standby => &self.second,
        }
    }

    /// The node that has stopped, if one has, and may crash.
    pub fn stopped(&self) -> Option<Node> {
        if self.first.has_stopped() && !self.is_fenced {
            return Some(Node::Primary);
        }
        if !self.second.has_stopped() {
            return None;
        }
        if self.is_promoted {
            Some(Node::Primary)
        } else {
            Some(Node::Standby)
        }
    }

    /// Looks at both devices after an event of a list up to this position, in which the standby may have become the primary or not. Nothing happens to the device of a fenced primary.
    pub fn look(
        &mut self,
        alloc: Global,
        position: u64,
        may_succeed: bool,
    ) -> Result<Glance, Found> {
        if self.is_fenced && self.first.is_changed() {
            return Err(Found::Breach(Breach::Succeeded));
        }
        self.look_at_images(alloc, position, may_succeed)
    }

    /// Looks at the images of the nodes that may still serve.
    pub fn look_at_images(
        &mut self,
        alloc: Global,
        position: u64,
        may_succeed: bool,
    ) -> Result<Glance, Found> {
        let mut first = Glance::SAME;
        if !self.is_fenced {
            first = self.first.look(alloc, position)?;
            self.look_at_first()?;
        }
        let second = self.second.look(alloc, position)?;
        if second.is_changed {
            self.look_at_second(may_succeed && self.is_fenced)?;
        }
        Ok(first.and(second))
    }

    /// The first image is the primary's.
    fn look_at_first(&self) -> Result<(), Breach> {
        if self.first.newest().serves_in(FIRST_EPOCH) {
            Ok(())
        } else {
            Err(Breach::Role)
        }
    }

    /// The second image, which changed, is a standby's, or that of the primary which it became, unless its node has stopped on the way.
    fn look_at_second(&mut self, may_succeed: bool) -> Result<(), Breach> {
        let newest = self.second.newest();
        if newest.stands_by() && !self.is_promoted {
            return Ok(());
        }
        if !newest.serves_in(FIRST_EPOCH + 1) || !(may_succeed || self.is_promoted) {
            return Err(Breach::Role);
        }
        if !self.second.has_stopped() {
            self.is_promoted = true;
        }
        Ok(())
    }

    /// The position of the image of the node that serves, or did last.
    pub fn serving(&self) -> u64 {
        if self.is_promoted {
            self.second.standing.position
        } else {
            self.first.standing.position
        }
    }

    /// The position that the images of all nodes have reached which may still serve.
    pub fn least(&self) -> u64 {
        let second = self.second.standing.position;
        if self.is_promoted {
            second
        } else {
            self.first.standing.position.min(second)
        }
    }
}
