//! One block of the plain map: what home, its clients and the memory hold of it.
ghost use Rattle.std.specs.Prelude.{◌≡◌, ◌↔◌, ◌<◌, ◌≤◌, ◌+◌, ◌*◌, IsTrue, OnOk, OnErr, IfOk, IfSome, IsSome, is_some, [], slice_range, slice_get, option_copied, length};
ghost use Rattle.tl_protocol.specs.Ledger.{count_clients, has_copy, is_recorded};
ghost use Rattle.tl_protocol.specs.Copy.{perm_of, bytes_of, CanRead};
ghost use Rattle.tl_protocol.specs.Client.{MayTakeA, MayTakeC, took_grant_ack};
ghost use Rattle.tl_protocol.specs.declared.home.Outward.TheVariants.{Put};
ghost use Rattle.tl_rules.specs.Plain.{block_state, plain_client};
ghost use Rattle.tl_protocol.specs.Protocol.{reset, after, MayOn, MayTakeData, accepted_from, took_c, with_client, served, took_data, home_bytes, is_alone, granted_cap, MaySendProbe, MaySendGrant, MaySendGet, MayGiveUp, grants, RoomFor, Idle, NoGrant, NoProbe, NobodyRecorded};

use std::alloc::{AllocError, Global};
use std::marker::Model;
use std::mem;
use tl_protocol::{
    Accepted, AckCount, CachedCopy, Client, Event, Line, Outward, Queue, Same, Shape,
};
use tl_types::{AccessBytes, BLOCK_BYTES, BlockBytes, ClientId, GrantCap, Grow, Perm, ProbeCap};

/// One block, with each of its clients.
#[derive(Drop)]
pub struct BlockState {
    memory: BlockBytes,
    home: Option<Line>,
    accepted: Option<Accepted>,
    outward: Outward,
    clients: Vec<Client>,
}

impl Model for BlockState {
    ghost use Rattle.tl_rules.specs.PlainBlock.{PlainBlock};

    ghost Value = { PlainBlock };

    ghost view = { λ b. record { memory = b.memory; home = b.home; accepted = b.accepted; outward = b.outward; clients = b.clients.items } };
}

/// Copies of clients, in their order. The error is want of memory.
fn copied_clients(alloc: Global, clients: &[Client]) -> Result<Vec<Client>, AllocError>
    ensures { IfOk result (λ copy. copy.items ≡ clients.now) }
{
    let mut copy = Vec::with_capacity(alloc, clients.len())?;
    for client in clients {
        copy.push(client.copied(alloc)?)?;
    }
    Ok(copy)
}

/// Takes all messages of a channel.
fn clear_queue<T: Drop>(queue: &mut Queue<T>)
    ensures { queue.new ≡ [] }
{
    for _ in 0..queue.as_slice().len() {
        queue.pop_front();
    }
}

/// Takes all acknowledgements.
fn clear_acks(acks: &mut AckCount)
    ensures { acks.new ≡ 0 }
{
    for _ in 0..acks.len() {
        acks.remove();
    }
}

/// A channel becomes the same as another, in the room that it has.
fn copy_queue<T: Same>(queue: &mut Queue<T>, other: &Queue<T>) -> Result<(), AllocError>
    ensures { OnOk result (queue.new ≡ other.now) }
{
    clear_queue(queue);
    for message in other.as_slice() {
        queue.push(message.copied())?;
    }
    Ok(())
}

/// A count of acknowledgements becomes the same as another.
fn copy_acks(acks: &mut AckCount, other: &AckCount) -> Result<(), AllocError>
    ensures { OnOk result (acks.new ≡ other.now) }
{
    clear_acks(acks);
    for _ in 0..other.len() {
        acks.add()?;
    }
    Ok(())
}

/// A client becomes the same as another.
fn copy_client(client: &mut Client, other: &Client) -> Result<(), AllocError>
    ensures { OnOk result (client.new ≡ other.now) }
{
    client.held = other.held.copied();
    client.wait = other.wait;
    client.recorded = other.recorded;
    copy_queue(&mut client.a, &other.a)?;
    copy_queue(&mut client.b, &other.b)?;
    copy_queue(&mut client.c, &other.c)?;
    copy_queue(&mut client.d, &other.d)?;
    copy_acks(&mut client.e, &other.e)
}

/// As many clients become the same as others. Mostly few are not the same before, where this is done for one step after
/// the other.
fn copy_clients(clients: &mut [Client], others: &[Client]) -> Result<(), AllocError>
    requires { length clients.old ≡ length others.now }
    ensures { OnOk result (clients.new ≡ others.now) }
{
    for i in 0..clients.len() {
        if !clients[i].is_same(&others[i]) {
            copy_client(&mut clients[i], &others[i])?;
        }
    }
    Ok(())
}

impl BlockState {
    /// A block that nobody but the memory holds. The error is want of memory.
    pub fn new(alloc: Global, clients: u32, memory: BlockBytes) -> Result<BlockState, AllocError>
        ensures reset { IfOk result (λ b. block_state b ≡ reset memory) }
        ensures clients { IfOk result (λ b. length b.clients ≡ clients) }
    {
        let mut fresh = Vec::with_capacity(alloc, clients as usize)?;
        for _client in 0..clients {
            fresh.push(Client::new(alloc))?;
        }
        Ok(BlockState {
            memory,
            home: None,
            accepted: None,
            outward: Outward::Quiet,
            clients: fresh,
        })
    }

    /// How many clients there are.
    pub fn client_count(&self) -> usize
        ensures { result ≡ length self.now.clients }
    {
        self.clients.len()
    }

    /// A copy, with clients of its own. The error is want of memory.
    pub fn copied(&self, alloc: Global) -> Result<BlockState, AllocError>
        ensures { IfOk result (λ b. b ≡ self.now) }
    {
        Ok(BlockState {
            memory: self.memory.copied(),
            home: self.copied_home(),
            accepted: self.accepted,
            outward: self.outward.copied(),
            clients: copied_clients(alloc, &self.clients)?,
        })
    }

    /// Home's copy again.
    fn copied_home(&self) -> Option<Line>
        ensures { result ≡ self.now.home }
    {
        match &self.home {
            Some(line) => Some(line.copied()),
            None => None,
        }
    }

    /// Becomes a copy of another, in the room that its clients have. The error is want of memory; it is then some
    /// block, of no use.
    pub fn copy_from(&mut self, alloc: Global, other: &BlockState) -> Result<(), AllocError>
        ensures { OnOk result (self.new ≡ other.now) }
    {
        self.memory = other.memory.copied();
        self.home = other.copied_home();
        self.accepted = other.accepted;
        self.outward = other.outward.copied();
        if self.clients.len() == other.clients.len() {
            copy_clients(&mut self.clients, &other.clients)
        } else {
            self.clients = copied_clients(alloc, &other.clients)?;
            Ok(())
        }
    }

    /// Whether home's copies are the same.
    fn has_same_home(&self, other: &BlockState) -> bool
        ensures { IsTrue result ↔ (self.now.home ≡ other.now.home) }
    {
        match (&self.home, &other.home) {
            (None, None) => true,
            (Some(line), Some(other)) => line.is_same(other),
            (None, Some(_)) | (Some(_), None) => false,
        }
    }

    /// Whether all clients are the same.
    fn has_same_clients(&self, other: &BlockState) -> bool
        ensures { IsTrue result ↔ (self.now.clients ≡ other.now.clients) }
    {
        if self.clients.len() != other.clients.len() {
            return false;
        }
        for i in 0..self.clients.len() {
            if !self.clients[i].is_same(&other.clients[i]) {
                return false;
            }
        }
        true
    }

    /// Whether two are the same.
    pub fn is_same(&self, other: &BlockState) -> bool
        ensures { IsTrue result ↔ (self.now ≡ other.now) }
    {
        self.accepted == other.accepted
            && self.outward.is_same(&other.outward)
            && self.has_same_home(other)
            && self.memory.as_slice() == other.memory.as_slice()
            && self.has_same_clients(other)
    }

    /// A client that is there.
    pub fn client(&self, c: ClientId) -> Option<&Client>
        ensures { option_copied result ≡ slice_get self.now.clients c }
    {
        self.clients.get(c.index())
    }

    /// A client by its number, which is there.
    pub fn the_client(&self, c: ClientId) -> &Client
        requires { c < length self.now.clients }
        ensures { result.now ≡ plain_client self.now c }
    {
        &self.clients[c.index()]
    }

    /// What the memory has.
    pub fn memory(&self) -> &BlockBytes
        ensures { result.now ≡ self.now.memory }
    {
        &self.memory
    }

    /// Home's copy.
    pub fn home(&self) -> Option<&Line>
        ensures { option_copied result ≡ self.now.home }
    {
        self.home.as_ref()
    }

    /// The Acquire that home serves.
    pub fn accepted(&self) -> Option<Accepted>
        ensures { result ≡ self.now.accepted }
    {
        self.accepted
    }

    /// What passes between home and the memory.
    pub fn outward(&self) -> &Outward
        ensures { result.now ≡ self.now.outward }
    {
        &self.outward
    }

    /// What the client may do.
    pub fn perm(&self, c: ClientId) -> Perm
        ensures { result ≡ perm_of (plain_client self.now c).held }
    {
        match self.clients.get(c.index()) {
            Some(client) => client.held.perm(),
            None => Perm::None,
        }
    }

    /// The bytes of the client's copy at a place, where it has them.
    pub fn read(&self, c: ClientId, offset: u32, len: u32) -> Option<AccessBytes>
        ensures some { IsSome result ↔ CanRead (plain_client self.now c).held offset len }
        ensures bytes { IfSome result
            (λ word. (word ≡ slice_range (bytes_of (plain_client self.now c).held) offset (offset + len))
            × (length word ≡ len)) }
    {
        match &self.clients.get(c.index())?.held {
            CachedCopy::Absent => None,
            CachedCopy::Readable(bytes) | CachedCopy::Writable(bytes, _) => bytes.access_at(
                offset, len,
            ),
        }
    }

    /// How many clients have a copy.
    pub fn held(&self) -> usize
        ensures { result ≡ count_clients has_copy (length self.now.clients) (plain_client self.now) }
    {
        let mut count = 0;
        for i in 0..self.clients.len() {
            if self.clients[i].held.perm() != Perm::None {
                count += 1;
            }
        }
        count
    }

    /// For how many clients home records a permission.
    pub fn recorded(&self) -> usize
        ensures { result ≡ count_clients is_recorded (length self.now.clients) (plain_client self.now) }
    {
        let mut count = 0;
        for i in 0..self.clients.len() {
            if self.clients[i].recorded != Perm::None {
                count += 1;
            }
        }
        count
    }

    /// Whether home has a copy.
    pub fn is_at_home(&self) -> bool
        ensures { result ≡ is_some self.now.home }
    {
        self.home.is_some()
    }

    /// Home takes the first Acquire of a client.
    fn accept_acquire(&mut self, c: ClientId)
        requires client { c < length self.old.clients }
        requires first { MayTakeA (plain_client self.old c) }
        ensures after { block_state self.new ≡ accepted_from (block_state self.old) c (plain_client self.old c).a }
        ensures clients { length self.new.clients ≡ length self.old.clients }
    {
        if let Some(grow) = self.clients[c.index()].a.pop_front() {
            self.accepted = Some(Accepted { client: c, grow });
        }
    }

    /// Home takes the first message of C of a client.
    fn take_c(&mut self, c: ClientId) -> Result<(), AllocError>
        requires client { c < length self.old.clients }
        requires first { MayTakeC (plain_client self.old c) }
        ensures ok { OnOk result (block_state self.new ≡ took_c (block_state self.old) c) }
        ensures err { OnErr result (self.new ≡ self.old) }
        ensures clients { length self.new.clients ≡ length self.old.clients }
    {
        if let Some(bytes) = self.clients[c.index()].take_c()? {
            self.home = Some(Line { bytes, dirty: true });
        }
        Ok(())
    }

    fn take_grant_ack(&mut self, c: ClientId)
        requires client { c < length self.old.clients }
        ensures after { block_state self.new
            ≡ with_client (record (block_state self.old) { accepted = None }) c
            (took_grant_ack (plain_client self.old c)) }
        ensures clients { length self.new.clients ≡ length self.old.clients }
    {
        self.clients[c.index()].take_grant_ack();
        self.accepted = None;
    }

    /// The memory answers what home asked of it.
    fn serve(&mut self)
        ensures after { block_state self.new ≡ served (block_state self.old) self.old.outward }
        ensures clients { length self.new.clients ≡ length self.old.clients }
    {
        self.outward = match mem::replace(&mut self.outward, Outward::Quiet) {
            Outward::Get => Outward::Data(self.memory.copied()),
            Outward::Put(bytes) => {
                self.memory = bytes;
                Outward::PutAck
            }
            other => other,
        };
    }

    fn take_data(&mut self)
        requires { MayTakeData (block_state self.old) }
        ensures after { block_state self.new ≡ took_data (block_state self.old) self.old.outward }
        ensures clients { length self.new.clients ≡ length self.old.clients }
    {
        if let Outward::Data(bytes) = mem::replace(&mut self.outward, Outward::Quiet) {
            self.home = Some(Line {
                bytes,
                dirty: false,
            });
        }
    }

    fn send_put(&mut self)
        requires { IsSome self.old.home }
        ensures after { block_state self.new
            ≡ record (block_state self.old) { home = None; outward = Put (home_bytes self.old.home) } }
        ensures clients { length self.new.clients ≡ length self.old.clients }
    {
        if let Some(line) = self.home.take() {
            self.outward = Outward::Put(line.bytes);
        }
    }

    /// Whether no client but `c` is recorded above None.
    fn is_alone(&self, c: ClientId) -> bool
        ensures { result ≡ is_alone (length self.now.clients) c (plain_client self.now) }
    {
        let mut alone = true;
        for i in 0..self.clients.len() {
            alone = (i == c.index() || self.clients[i].recorded == Perm::None) && alone;
        }
        alone
    }

    /// The permission that a Grant for `acquire` gives now.
    pub fn granted(&self, acquire: Accepted) -> GrantCap
        ensures { result
            ≡ granted_cap acquire.grow (is_alone (length self.now.clients) acquire.client (plain_client self.now)) }
    {
        match acquire.grow {
            Grow::NtoB if !self.is_alone(acquire.client) => GrantCap::ToB,
            _ => GrantCap::ToT,
        }
    }

    /// Answers the Acquire that home accepted of the client.
    fn send_grant(&mut self, shape: Shape, c: ClientId) -> Result<(), AllocError>
        requires size { length self.old.clients ≡ shape.clients }
        requires client { c < shape.clients }
        requires may { MaySendGrant shape (block_state self.old) c }
        ensures ok { OnOk result (block_state self.new ≡ grants shape (block_state self.old) c self.old.accepted) }
        ensures err { OnErr result (self.new ≡ self.old) }
        ensures clients { length self.new.clients ≡ length self.old.clients }
    {
        let Some(acquire) = self.accepted else {
            return Ok(());
        };
        let cap = self.granted(acquire);
        let Some(line) = &self.home else {
            return Ok(());
        };
        self.clients[c.index()].send_grant(cap, &line.bytes)
    }

    /// Whether no Grant of the block is pending.
    #[tactic(auto, using(crate::proofs::Blocks::each_client))]
    pub fn has_no_grant(&self, shape: Shape) -> bool
        requires { length self.now.clients ≡ shape.clients }
        ensures { IsTrue result ↔ NoGrant shape (block_state self.now) }
    {
        self.clients.iter().all(|client| client.has_no_grant())
    }

    /// Whether no Probe of the block is pending.
    #[tactic(auto, using(crate::proofs::Blocks::each_client))]
    pub fn has_no_probe(&self, shape: Shape) -> bool
        requires { length self.now.clients ≡ shape.clients }
        ensures { IsTrue result ↔ NoProbe shape (block_state self.now) }
    {
        self.clients.iter().all(|client| client.has_no_probe())
    }

    /// Whether home records nobody.
    #[tactic(auto, using(crate::proofs::Blocks::each_client))]
    pub fn has_nobody_recorded(&self, shape: Shape) -> bool
        requires { length self.now.clients ≡ shape.clients }
        ensures { IsTrue result ↔ NobodyRecorded shape (block_state self.now) }
    {
        self.clients
            .iter()
            .all(|client| client.recorded == Perm::None)
    }

    #[tactic(auto, using(crate::proofs::Blocks::each_client))]
    fn has_no_tip(&self, shape: Shape) -> bool
        requires { length self.now.clients ≡ shape.clients }
        ensures { IsTrue result ↔ RoomFor shape (block_state self.now) 0 GrantCap.ToB }
    {
        self.clients
            .iter()
            .all(|client| client.recorded != Perm::Tip)
    }

    /// Whether home may grant `cap` to the client beside the other records.
    pub fn has_room_for(&self, shape: Shape, c: ClientId, cap: GrantCap) -> bool
        requires { length self.now.clients ≡ shape.clients }
        ensures { IsTrue result ↔ RoomFor shape (block_state self.now) c cap }
    {
        match cap {
            GrantCap::ToT => self.is_alone(c),
            GrantCap::ToB => self.has_no_tip(shape),
        }
    }

    fn is_idle(&self, shape: Shape) -> bool
        requires { length self.now.clients ≡ shape.clients }
        ensures { IsTrue result ↔ Idle shape (block_state self.now) }
    {
        self.has_nobody_recorded(shape)
            && self.has_no_probe(shape)
            && self.has_no_grant(shape)
            && self.accepted.is_none()
            && self.outward.is_quiet()
    }

    fn may_send_probe(&self, shape: Shape, c: ClientId, cap: ProbeCap) -> bool
        requires size { length self.now.clients ≡ shape.clients }
        requires client { c < shape.clients }
        ensures { IsTrue result ↔ MaySendProbe shape (block_state self.now) c cap }
    {
        let client = &self.clients[c.index()];
        cap.perm() < client.recorded && client.has_no_probe() && self.has_no_grant(shape)
    }

    fn may_send_grant(&self, shape: Shape, c: ClientId) -> bool
        requires size { length self.now.clients ≡ shape.clients }
        requires client { c < shape.clients }
        ensures { IsTrue result ↔ MaySendGrant shape (block_state self.now) c }
    {
        match (&self.accepted, &self.home) {
            (Some(acquire), Some(_)) => {
                acquire.client == c
                    && self.has_no_probe(shape)
                    && self.has_no_grant(shape)
                    && self.has_room_for(shape, c, self.granted(*acquire))
            }
            _ => false,
        }
    }

    fn may_send_get(&self) -> bool
        ensures { IsTrue result ↔ MaySendGet (block_state self.now) }
    {
        match (&self.accepted, &self.home) {
            (Some(_), None) => self.outward.is_quiet(),
            _ => false,
        }
    }

    /// Whether home may give up its copy, which is dirty or not.
    fn may_give_up(&self, shape: Shape, dirty: bool) -> bool
        requires { length self.now.clients ≡ shape.clients }
        ensures { IsTrue result ↔ MayGiveUp shape (block_state self.now) dirty }
    {
        match &self.home {
            Some(line) => line.dirty == dirty && self.is_idle(shape),
            None => false,
        }
    }

    /// Whether an event of this block may come next.
    pub fn may_follow(&self, shape: Shape, event: &Event) -> bool
        requires size { length self.now.clients ≡ shape.clients }
        requires bytes { (0 < shape.block_bytes) × (shape.block_bytes ≤ BLOCK_BYTES) }
        ensures { IsTrue result ↔ MayOn shape (block_state self.now) event.now }
    {
        match event {
            Event::Load(access) => {
                access.client.number() < shape.clients
                    && self.the_client(access.client).may_load(shape, access)
            }
            Event::Store(access) => {
                access.client.number() < shape.clients
                    && self.the_client(access.client).may_store(shape, access)
            }
            Event::SendAcquire(c, _, grow) => {
                c.number() < shape.clients && self.the_client(*c).may_send_acquire(*grow)
            }
            Event::SendRelease(c, _, prune) => {
                c.number() < shape.clients && self.the_client(*c).may_send_release(*prune)
            }
            Event::AnswerProbe(c, _) => {
                c.number() < shape.clients && self.the_client(*c).may_answer_probe()
            }
            Event::TakeGrant(c, _) => {
                c.number() < shape.clients && self.the_client(*c).may_take_grant()
            }
            Event::TakeReleaseAck(c, _) => {
                c.number() < shape.clients && self.the_client(*c).may_take_release_ack()
            }
            Event::AcceptAcquire(c, _) => {
                c.number() < shape.clients
                    && self.the_client(*c).may_take_a()
                    && self.accepted.is_none()
            }
            Event::SendProbe(c, _, cap) => {
                c.number() < shape.clients && self.may_send_probe(shape, *c, *cap)
            }
            Event::TakeC(c, _) => c.number() < shape.clients && self.the_client(*c).may_take_c(),
            Event::SendGrant(c, _) => c.number() < shape.clients && self.may_send_grant(shape, *c),
            Event::TakeGrantAck(c, _) => {
                c.number() < shape.clients && self.the_client(*c).may_take_grant_ack()
            }
            Event::SendGet(_) => self.may_send_get(),
            Event::Serve(_) => self.outward.may_serve(),
            Event::TakeData(_) => self.outward.is_data(),
            Event::Drop(_) => self.may_give_up(shape, false),
            Event::SendPut(_) => self.may_give_up(shape, true),
            Event::TakePutAck(_) => self.outward.is_put_ack(),
        }
    }

    /// Carries out an event that may come next. The error is want of memory; nothing changes then.
    pub fn apply(&mut self, shape: Shape, event: &Event) -> Result<(), AllocError>
        requires size { length self.old.clients ≡ shape.clients }
        requires bytes { (0 < shape.block_bytes) × (shape.block_bytes ≤ BLOCK_BYTES) }
        requires may { MayOn shape (block_state self.old) event.now }
        ensures ok { OnOk result (block_state self.new ≡ after shape (block_state self.old) event.now) }
        ensures err { OnErr result (self.new ≡ self.old) }
        ensures clients { length self.new.clients ≡ length self.old.clients }
    {
        match event {
            Event::Load(_) => Ok(()),
            Event::Store(access) => {
                let offset = access.address % shape.block_bytes;
                self.clients[access.client.index()].store(offset as usize, &access.bytes);
                Ok(())
            }
            Event::SendAcquire(c, _, grow) => self.clients[c.index()].send_acquire(*grow),
            Event::SendRelease(c, _, prune) => self.clients[c.index()].send_release(*prune),
            Event::AnswerProbe(c, _) => self.clients[c.index()].answer_probe(),
            Event::TakeGrant(c, _) => self.clients[c.index()].take_grant(),
            Event::TakeReleaseAck(c, _) => {
                self.clients[c.index()].take_release_ack();
                Ok(())
            }
            Event::AcceptAcquire(c, _) => {
                self.accept_acquire(*c);
                Ok(())
            }
            Event::SendProbe(c, _, cap) => self.clients[c.index()].send_probe(*cap),
            Event::TakeC(c, _) => self.take_c(*c),
            Event::SendGrant(c, _) => self.send_grant(shape, *c),
            Event::TakeGrantAck(c, _) => {
                self.take_grant_ack(*c);
                Ok(())
            }
            Event::SendGet(_) => {
                self.outward = Outward::Get;
                Ok(())
            }
            Event::Serve(_) => {
                self.serve();
                Ok(())
            }
            Event::TakeData(_) => {
                self.take_data();
                Ok(())
            }
            Event::Drop(_) => {
                self.home = None;
                Ok(())
            }
            Event::SendPut(_) => {
                self.send_put();
                Ok(())
            }
            Event::TakePutAck(_) => {
                self.outward = Outward::Quiet;
                Ok(())
            }
        }
    }
}
