//! A keeper as a service of HTTP: a request, at most one visit that a door lets in, a response.
//! RFC 9110, section 3.3.
ghost use Rattle.std.specs.Prelude.{◌≡◌, IfOk, Some};
ghost use Rattle.path_normal.specs.PageText.{authority_of};
ghost use Rattle.http.specs.Request.{head_of};
ghost use Rattle.http_front.specs.Answering.{DoesPage, DoesRequest, IsLetIn, job_of};

use crate::asked::{Misasked, PageWish, Wish};
use crate::door::SiteDoor;
use crate::forwarding::Forwarding;
use crate::metrics::Metrics;
use crate::reading::read_request;
use crate::telling::answer;
use crate::told::{Later, OwnAnswer, Told, reply_in, told_visit};
use bytes::Bytes;
use command_server::{FetchClock, NumberedClock, next_reading};
use crawl_job::Job;
use http::Request;
use http_server::{Config, Response, Service};
use http_turns::Asker;
use http_wire::ForwardedFields;
use http1::Limits;
use keepers::Keeper;
use page_worker::Visited;
use path_normal::Authority;
use std::alloc::{AllocError, Global};

/// The limits of a connection to a front: heads of 16,384 octets, and no bodies. A request is answered once
/// the answer before it is sent, and an idle connection keeps 1,024 octets of room.
pub fn front_config() -> Config {
    Config {
        limits: Limits::default(),
        max_body_len: 0,
        max_pending: 0,
        read_size: 1_024,
    }
}

/// Answers requests by visits of a lent keeper. No visit leaves anything out.
#[derive(Drop)]
pub struct Front<'f, K: Keeper, D: SiteDoor, C: NumberedClock, M: Metrics> {
    /// What responses are allocated by.
    pub alloc: Global,
    /// What visits pages.
    pub keeper: &'f mut K,
    /// What lets visits to sites in. `&()` lets each in.
    pub door: &'f D,
    /// The clock of the visits.
    pub clock: &'f C,
    /// What tells the gate's numbers.
    pub metrics: &'f M,
    /// What of a request goes to the site.
    pub forwarding: Forwarding,
    /// Whose request the next one is.
    pub asker: Asker,
    /// The number of the next visit's readings. Begin with 0.
    pub number: u64,
    /// Whether the last request was not begun: it left nothing, and may be sent again when its time has come.
    /// Begin with false.
    pub later: bool,
    /// How many octets the body of the last answer had. Begin with 0.
    pub octets: u64,
}

impl<'f, K: Keeper, D: SiteDoor, C: NumberedClock, M: Metrics> Service for Front<'f, K, D, C, M> {
    ghost use Rattle.command_server.specs.Readings.{next_reading};
    ghost use Rattle.http_front.specs.Answering.{AnswersRequest};

    ghost answers = { λ old request response new.
        ((new.keeper.ghost_name ≡ old.keeper.ghost_name) × (new.door ≡ old.door) × (new.clock ≡ old.clock)
        × (new.metrics ≡ old.metrics) × (new.forwarding ≡ old.forwarding) × (new.asker ≡ old.asker) × (new.number ≡ next_reading old.number))
        × AnswersRequest K.deals (D.answers old.door.now) (D.leaves old.door.now)
        (C.reads old.clock.now) (M.tells old.metrics.now) old.number
        old.keeper.now request response new.later new.keeper.now };

    /// Never an error: where memory is short, that is the answer.
    fn call(
        &mut self,
        request: &Request<Bytes>,
        response: &mut Response,
    ) -> Result<(), AllocError> {
        let schemes = self.keeper.schemes();
        let clock = FetchClock {
            clock: self.clock,
            number: self.number,
        };
        self.number = next_reading(self.number);
        let fields = self.forwarding.fields_of(request);
        let asker = self.asker;
        let told = told_of(
            self.alloc,
            self.keeper,
            self.door,
            &clock,
            request,
            &fields,
            asker,
        );
        self.later = told.is_later();
        note(self.metrics, &told);
        self.octets = answer(self.alloc, schemes, self.metrics, told, response);
        Ok(())
    }
}

// Has a denial or a failed fetch counted.
fn note<M: Metrics>(metrics: &M, told: &Told) {
    match told {
        Told::Own(OwnAnswer::Denied(denial)) => metrics.note_denial(denial.cause),
        Told::Own(OwnAnswer::Failed(..)) => metrics.note_failed_page(),
        Told::Own(_) | Told::Page(..) | Told::Metrics(_) => {}
    }
}

fn told_of<K: Keeper, D: SiteDoor, C: NumberedClock>(
    alloc: Global,
    keeper: &mut K,
    door: &D,
    clock: &FetchClock<'_, C>,
    request: &Request<Bytes>,
    fields: &ForwardedFields<'_>,
    asker: Asker,
) -> Told
    ensures { DoesRequest K.deals (D.answers door.now) (D.leaves door.now)
        (C.reads clock.now.clock.now clock.now.number) keeper.old
        (head_of request.now) result keeper.new }
{
    match read_request(alloc, keeper.schemes(), request) {
        Ok(Wish::Page(asked)) => visit_asked(alloc, keeper, door, clock, asked, fields, asker),
        Ok(Wish::Metrics) => Told::Metrics(keeper.counts()),
        Err(why) => Told::Own(OwnAnswer::Misasked(why)),
    }
}

// Visits the page that is asked for, if the door lets that in.
fn visit_asked<K: Keeper, D: SiteDoor, C: NumberedClock>(
    alloc: Global,
    keeper: &mut K,
    door: &D,
    clock: &FetchClock<'_, C>,
    asked: PageWish,
    fields: &ForwardedFields<'_>,
    asker: Asker,
) -> Told
    ensures { DoesPage K.deals (D.answers door.now) (D.leaves door.now)
        (C.reads clock.now.clock.now clock.now.number) keeper.old asked result keeper.new }
{
    let (Ok(job), Ok(site)) = (job_of(&asked), Authority::of(&asked.url)) else {
        return Told::Own(OwnAnswer::Misasked(Misasked::NoMemory));
    };
    match door.enter(&site, asker) {
        Some(pass) => {
            let visit = visit_let_in(alloc, keeper, door, clock, job, fields, pass);
            told_visit(asked, visit)
        }
        None => Told::Own(OwnAnswer::Later(Later::Door)),
    }
}

// Makes a visit that the door let in, and tells the door its response.
fn visit_let_in<K: Keeper, D: SiteDoor, C: NumberedClock>(
    alloc: Global,
    keeper: &mut K,
    door: &D,
    clock: &FetchClock<'_, C>,
    job: Job,
    fields: &ForwardedFields<'_>,
    pass: D::Pass,
) -> Option<Visited>
    requires { D.answers door.now (authority_of job.url) (Some pass) }
    ensures { IsLetIn K.deals (D.answers door.now) (D.leaves door.now)
        (C.reads clock.now.clock.now clock.now.number) keeper.old job pass result keeper.new }
{
    let visit = keeper.visit(alloc, job, fields, clock);
    door.leave(pass, reply_in(&visit));
    visit
}

fn job_of(asked: &PageWish) -> Result<Job, AllocError>
    ensures { IfOk result (λ job. job ≡ job_of asked.now) }
{
    Ok(Job {
        token: asked.token.copy()?,
        url: asked.url.copy()?,
    })
}
