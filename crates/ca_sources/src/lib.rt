//! The worked sources, as texts.
#![tactic(auto)]

/// A `main` that returns.
pub const EMPTY_MAIN: &[u8] = b"int main(void){ return 0; }";

/// A sum that is printed.
pub const PRINTED_SUM: &[u8] =
    b"int g; int main(void){ g = 2 + 3; printf(\"%d\\n\", g); return 0; }";

/// A thread that asserts too early.
pub const WATCH: &[u8] = b"int ready;
void *watch(void *arg) {
  assert(ready == 1);
  return NULL;
}
int main(void) {
  pthread_t t;
  pthread_create(&t, NULL, watch, NULL);
  ready = 1;
  pthread_join(t, NULL);
  return 0;
}";

/// Two threads that take two mutexes in opposed orders.
pub const OPPOSED_LOCKS: &[u8] = b"pthread_mutex_t a = PTHREAD_MUTEX_INITIALIZER;
pthread_mutex_t b = PTHREAD_MUTEX_INITIALIZER;
int n;
void *one(void *arg) {
  pthread_mutex_lock(&a);
  pthread_mutex_lock(&b);
  n = n + 1;
  pthread_mutex_unlock(&b);
  pthread_mutex_unlock(&a);
  return NULL;
}
void *two(void *arg) {
  pthread_mutex_lock(&b);
  pthread_mutex_lock(&a);
  n = n + 1;
  pthread_mutex_unlock(&a);
  pthread_mutex_unlock(&b);
  return NULL;
}
int main(void) {
  pthread_t x;
  pthread_t y;
  pthread_create(&x, NULL, one, NULL);
  pthread_create(&y, NULL, two, NULL);
  pthread_join(x, NULL);
  pthread_join(y, NULL);
  printf(\"%d\\n\", n);
  return 0;
}";

/// A thread that locks its own mutex again.
pub const SELF_LOCK: &[u8] = b"pthread_mutex_t m;
int main(void) {
  pthread_mutex_lock(&m);
  pthread_mutex_lock(&m);
  return 0;
}";

/// A read through a pointer that is still null.
pub const NULL_POINTER: &[u8] = b"int *p;
void *use(void *arg) {
  printf(\"%d\\n\", *p);
  return NULL;
}
int main(void) {
  pthread_t t;
  pthread_create(&t, NULL, use, NULL);
  p = malloc(sizeof(int));
  *p = 7;
  pthread_join(t, NULL);
  return 0;
}";

/// A block before an assertion.
pub const GIVEN_BLOCK: &[u8] = b"int ok;
void *f(void *arg) {
  int *q = malloc(2 * sizeof(int));
  assert(ok);
  free(q);
  return NULL;
}
int main(void) {
  pthread_t t;
  pthread_create(&t, NULL, f, NULL);
  ok = 1;
  pthread_join(t, NULL);
  return 0;
}";

/// An assertion in a called function.
pub const THROUGH_CALLER: &[u8] = b"int g;
void need(int v) {
  assert(v == 1);
}
void *f(void *arg) {
  int x = g;
  need(x);
  return NULL;
}
int main(void) {
  pthread_t t;
  pthread_create(&t, NULL, f, NULL);
  g = 1;
  pthread_join(t, NULL);
  return 0;
}";

/// A loop whose condition is a site.
pub const LOOP_POINTS: &[u8] = b"int a[2];
int n;
int main(void) {
  int i = 0;
  while (i < a[n]) {
    i = i + 1;
    n = i;
  }
  return 0;
}";

/// Producers and a consumer of a bounded buffer.
pub const BOUNDED_BUFFER: &[u8] = b"#include <pthread.h>
#include <stdio.h>
#include <stdlib.h>
#include <assert.h>

/* Bounded buffer; the consumer may start before the buffer is there. */
struct ring {
    int *slots;
    int head;
    int used;
};

struct ring *buffer;
pthread_mutex_t guard = PTHREAD_MUTEX_INITIALIZER;
static int size = 4;
int one = 10, two = 20;

void *consume(void *arg)
{
    int got = 0;
    while (got < 6) {
        int has = 0;
        int v = 0;
        pthread_mutex_lock(&guard);
        if (buffer->used > 0) {
            v = buffer->slots[buffer->head];
            buffer->head = (buffer->head + 1) % size;
            buffer->used--;
            has = 1;
        }
        pthread_mutex_unlock(&guard);
        if (has) {
            printf(\"item %d\\n\", v);
            got++;
        }
    }
    return NULL;
}

int put(int v)
{
    int done = 0;
    pthread_mutex_lock(&guard);
    if (buffer->used < size) {
        buffer->slots[(buffer->head + buffer->used) % size] = v;
        buffer->used++;
        done = 1;
    }
    pthread_mutex_unlock(&guard);
    return done;
}

void *produce(void *arg)
{
    int *first = arg;
    int i = 0;
    while (i < 3) {
        int done = put(*first + i);
        if (done)
            i++;
    }
    return NULL;
}

int main(void)
{
    pthread_t a, b, c;
    pthread_create(&c, NULL, consume, NULL);
    buffer = malloc(sizeof(struct ring));
    buffer->slots = malloc(size * sizeof(int));
    pthread_create(&a, NULL, produce, &one);
    pthread_create(&b, NULL, produce, &two);
    pthread_join(a, NULL);
    pthread_join(b, NULL);
    pthread_join(c, NULL);
    return 0;
}";

/// All of them.
pub const ALL: [&[u8]; 10] = [
    EMPTY_MAIN,
    PRINTED_SUM,
    WATCH,
    OPPOSED_LOCKS,
    SELF_LOCK,
    NULL_POINTER,
    GIVEN_BLOCK,
    THROUGH_CALLER,
    LOOP_POINTS,
    BOUNDED_BUFFER,
];
