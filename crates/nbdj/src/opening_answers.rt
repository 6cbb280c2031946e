//! The opening of a device, and the thread that tells meanwhile how far it is.

use crate::second_handle::SecondHandle;
use crate::server_log::ServerLog;
use crate::serving::{ServedDisk, open_device};
use crate::status_socket::StatusSocket;
use export::OpenDevice;
use front_end::Refusal;
use std::rt::Clock;
use std::sync::Wait;
use std::thread::{self, Scope, Threads};

/// Opens a device while a thread answers at the status socket.
pub fn open_answered<'a, 'b, R: Threads + Wait + Clock + Sync>(
    rt: &HostRuntime,
    log: ServerLog<'b, R>,
    socket: &'b StatusSocket<'b>,
    disk: ServedDisk<'a, R>,
    second_handle: Option<SecondHandle<'b, R>>,
) -> Result<OpenDevice<ServedDisk<'a, R>, SecondHandle<'b, R>>, Refusal> {
    let threads = log.threads();
    let answers = OpeningAnswers {
        rt: threads,
        socket,
    };
    let answered = AnsweredOpening {
        rt,
        answers: &answers,
        log,
        disk,
        second_handle,
    };
    let opened = open_beside(threads, answered);
    socket.end_opening();
    opened
}

// Opens the device beside the thread that answers.
fn open_beside<'a, 'b, 'c, 's, R: Threads + Wait + Clock + Sync>(
    threads: &R,
    answered: AnsweredOpening<'a, 'b, 'c, 's, R>,
) -> Result<OpenDevice<ServedDisk<'a, R>, SecondHandle<'b, R>>, Refusal> {
    thread::scope(
        thread::scope_env(),
        threads,
        move |scope| answered.open(scope),
    )
}

// What is to be opened, and the answers meanwhile.
#[derive(Drop)]
struct AnsweredOpening<'a, 'b, 'c, 's, R: Wait + Clock> {
    rt: &'c HostRuntime,
    answers: &'s OpeningAnswers<'b, R>,
    log: ServerLog<'b, R>,
    disk: ServedDisk<'a, R>,
    second_handle: Option<SecondHandle<'b, R>>,
}

impl<'a, 'b, 'c, 's, R: Threads + Wait + Clock + Sync> AnsweredOpening<'a, 'b, 'c, 's, R> {
    fn open<'e, E>(
        self,
        scope: &Scope<'e, E>,
    ) -> Result<OpenDevice<ServedDisk<'a, R>, SecondHandle<'b, R>>, Refusal>
    where
        's: 'e,
    {
        let AnsweredOpening {
            rt,
            answers,
            log,
            disk,
            second_handle,
        } = self;
        // Without the thread nobody is answered before the device is open.
        let _is_answered = answers.start(scope);
        let opened = open_device(rt, log, disk, second_handle);
        answers.socket.meter.opening.finish();
        opened
    }
}

// The answers at the status socket while a device is opened.
#[derive(Clone, Copy)]
struct OpeningAnswers<'a, R> {
    rt: &'a R,
    socket: &'a StatusSocket<'a>,
}

impl<'a, R: Wait + Clock + Sync> OpeningAnswers<'a, R> {
    // Starts the thread; whether there is one.
    fn start<'s, E>(&'s self, scope: &Scope<'s, E>) -> bool {
        self.socket.begin_opening() && scope.spawn(move || self.run()).is_ok()
    }

    fn run(&self) {
        self.socket.answer_opening(self.rt);
    }
}
