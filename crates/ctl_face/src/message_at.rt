use ruby_value::MsgNo;

/// Where a message of a scan is: the buffer that it is in, or comes back to where it is stalled, and its number. It stands for
/// the message that the controller had there as the scan began, and stays good until the scan ends.
#[derive(Clone, Copy)]
pub struct MessageAt {
    pub buffer: u16,
    pub number: MsgNo,
}
