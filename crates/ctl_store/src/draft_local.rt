use crate::draft::Draft;
use ctl_face::{Local, MachineSetup, MessageAt, Trouble};
use ruby_value::{Block, Fields, Message, Ref, Value};

impl<'a> Local for Draft<'a> {
    ghost use Rattle.ctl_store.specs.Scanned.{local_of};

    ghost view = { λ d. local_of d.scan };

    ghost lawful = { λ d. d.lawful };

    fn now(&self) -> u64 {
        self.scan.now()
    }

    fn me(&self) -> u32 {
        self.scan.me()
    }

    fn machine(&self) -> &MachineSetup {
        self.scan.machine()
    }

    fn get(&self, r: &Ref, field: u16) -> Result<Value, Trouble> {
        self.scan.get(r, field)
    }

    fn field(&self, r: &Ref, field: u16) -> Option<&Value> {
        self.scan.field(r, field)
    }

    fn set(&mut self, r: &Ref, field: u16, v: Value) -> Result<(), Trouble> {
        self.scan.set(r, field, v)
    }

    fn lookup(&self, table: u16, line: u64) -> Option<Ref> {
        self.scan.lookup(table, line)
    }

    fn avail(&self, table: u16, line: u64) -> bool {
        self.scan.avail(table, line)
    }

    fn probe(&self, table: u16, line: u64) -> Result<u64, Trouble> {
        self.scan.probe(table, line)
    }

    fn allocate(&mut self, table: u16, line: u64) -> Result<Ref, Trouble> {
        self.scan.allocate(table, line)
    }

    fn deallocate(&mut self, table: u16, line: u64) -> Result<(), Trouble> {
        self.scan.deallocate(table, line)
    }

    fn touch(&mut self, table: u16, line: u64) -> Result<(), Trouble> {
        self.scan.touch(table, line)
    }

    fn free(&self, table: u16) -> u64 {
        self.scan.free(table)
    }

    fn ready(&self, buffer: u16) -> bool {
        self.scan.ready(buffer)
    }

    fn front(&self, buffer: u16) -> Result<Message, Trouble> {
        self.scan.front(buffer)
    }

    fn peek(&self, buffer: u16) -> Option<&Message> {
        self.scan.peek(buffer)
    }

    fn front_at(&self, buffer: u16) -> Option<MessageAt> {
        self.scan.front_at(buffer)
    }

    fn message(&self, at: MessageAt) -> &Message {
        self.scan.message(at)
    }

    fn pop(&mut self, buffer: u16) -> Result<(), Trouble> {
        self.scan.pop(buffer)
    }

    fn stall(&mut self, buffer: u16, line: u64) -> Result<(), Trouble> {
        self.scan.stall(buffer, line)
    }

    fn wake(&mut self, line: u64) -> Result<(), Trouble> {
        self.scan.wake(line)
    }

    fn wake_all(&mut self) -> Result<(), Trouble> {
        self.scan.wake_all()
    }

    fn recycle(&mut self, buffer: u16, latency: i64) -> Result<(), Trouble> {
        self.scan.recycle(buffer, latency)
    }

    fn send(&mut self, buffer: u16, latency: i64, fields: Fields) -> Result<(), Trouble> {
        self.scan.send(buffer, latency, fields)
    }

    fn slots(&self, buffer: u16) -> Option<u64> {
        self.scan.slots(buffer)
    }

    fn read_back(&mut self, line: u64, block: &Block) -> Result<(), Trouble> {
        self.scan.read_back(line, block)
    }

    fn write_back(&mut self, line: u64, block: Block) -> Result<Block, Trouble> {
        self.scan.write_back(line, block)
    }

    fn state(&self, line: u64) -> u16 {
        self.scan.state(line)
    }

    fn set_state(&mut self, line: u64, state: u16) -> Result<(), Trouble> {
        self.scan.set_state(line, state)
    }

    fn again(&mut self) -> Result<(), Trouble> {
        self.scan.again()
    }
}
