ghost use Rattle.std.specs.Prelude.{◌≡◌};
ghost use Rattle.ctl_face.specs.Routing.{receiving_buffer, path_to, is_ordered, size_of};

use ruby_value::Seq;

/// What a topology says of the network between controllers, which are numbered from 0. This form of a network is
/// this project's own.
#[derive(Drop)]
pub struct Routes {
    /// By sender and then receiver, how many cycles the path between them takes, at most 126,000. A topology has 0 to oneself.
    pub paths: Seq<Seq<u64>>,
    /// The most cycles that a copy may be late, at most 1,000. Where it is 0, none is late and no word is drawn.
    pub jitter: u64,
    /// By virtual network, of which there are 16, whether it keeps the order of what one controller sends to another. It
    /// does where the topology or a buffer on it says so; whoever makes the routes joins the two.
    pub ordered: Seq<bool>,
    /// By controller, of which there are at most 64, and then virtual network, the number within its machine of the buffer
    /// that takes the messages of that network, where it has one.
    pub receiving: Seq<Seq<Option<u16>>>,
    /// The buffers with a size, each once: the controller, the number within its machine of a buffer that it takes messages from,
    /// and how many slots each sender has there, at most 65,536. A buffer that isn't listed has no size.
    pub slots: Seq<(u32, u16, u64)>,
}

impl Routes {
    /// The buffer that takes the messages of a virtual network at a controller, if there is one. It takes no memory.
    pub fn receiving_buffer(&self, receiver: u32, network: u16) -> Option<u16>
        ensures { result ≡ receiving_buffer self.now receiver network }
    {
        let Some(buffers) = self.receiving.get(receiver as usize) else {
            return None;
        };
        match buffers.get(usize::from(network)) {
            Some(buffer) => *buffer,
            None => None,
        }
    }

    /// How many slots each sender has in a buffer at a receiver, if the buffer has a size. It takes no memory.
    pub fn size_of(&self, receiver: u32, buffer: u16) -> Option<u64>
        ensures { result ≡ size_of self.now receiver buffer }
    {
        let slot = self
            .slots
            .iter()
            .find(|slot| slot.0 == receiver && slot.1 == buffer)?;
        Some(slot.2)
    }

    /// The length of the path between two controllers, in cycles; 0 between two that aren't there. It takes no memory.
    pub fn path_to(&self, sender: u32, receiver: u32) -> u64
        ensures { result ≡ path_to self.now sender receiver }
    {
        let Some(paths) = self.paths.get(sender as usize) else {
            return 0;
        };
        match paths.get(receiver as usize) {
            Some(path) => *path,
            None => 0,
        }
    }

    /// Whether a virtual network keeps the order of what one controller sends to another. It takes no memory.
    pub fn is_ordered(&self, network: u16) -> bool
        ensures { result ≡ is_ordered self.now network }
    {
        match self.ordered.get(usize::from(network)) {
            Some(ordered) => *ordered,
            None => false,
        }
    }
}
