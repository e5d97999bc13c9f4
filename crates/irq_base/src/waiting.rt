//! What drivers' calls wait for.

/// The four things that calls on a line wait for, each as it stands.
#[derive(Clone, Copy, PartialEq, Eq)]
pub struct Blocks {
    /// A flow is in progress (`irqd_irq_inprogress`): hard clears wait for its end.
    pub flow: bool,
    /// Some thread is woken or in a run (`desc->threads_active`): syncs wait for it.
    pub threads: bool,
    /// A free is under way (`desc->request_mutex` is held): requests and frees wait for it.
    pub mutex: bool,
    /// The device that is being freed is woken or in a run (`kthread_stop` of `__free_irq`): the
    /// free's end waits.
    pub freed: bool,
}

/// Which of the four things a call waits for.
#[derive(Clone, Copy, PartialEq, Eq)]
pub enum WaitFor {
    /// Nothing.
    Nothing,
    /// The end of the flow.
    Flow,
    /// All threads at rest.
    Threads,
    /// The request mutex.
    Mutex,
    /// The thread of the device that is being freed, at rest.
    Freed,
}
